// Theorems: reading undoes writing, and writing undoes reading.
ghost use Rattle.files.specs.DayWriting.{DayReadsBack, DayWritesBack};
ghost use Rattle.files.specs.Encoding.{encode_entry, encode_step, CardEntryTyped, StepTyped, ReadsBack, WritesBack};
ghost use Rattle.files.specs.Records.{decode_entry, decode_step};
ghost use Rattle.files.specs.RoundTrip.{RunReadsBack, WrittenReadsBack, RunWritesBack};

// Each function here does nothing: its contract is a theorem.

// Of records.
pub fn records_round_trip() -> u8
    ensures reads { ReadsBack CardEntryTyped encode_entry decode_entry × ReadsBack StepTyped encode_step decode_step }
    ensures writes { WritesBack encode_entry decode_entry × WritesBack encode_step decode_step }
{
    0
}

// Of run files.
pub fn runs_round_trip() -> u8
    ensures reads { RunReadsBack }
    ensures written { WrittenReadsBack }
    ensures writes { RunWritesBack }
{
    0
}

// Of day files.
pub fn days_round_trip() -> u8
    ensures reads { DayReadsBack }
    ensures writes { DayWritesBack }
{
    0
}
