// What a step record holds.
ghost use Rattle.files.specs.Encoding.{encode_step, StepTyped};
ghost use Rattle.files.specs.Recording.{step_width, step_reads_back, step_writes_back};
ghost use Rattle.files.specs.Records.{step_of, decode_step};
ghost use Rattle.std.proofs.Common.{rules};
ghost use Rattle.std.specs.Prelude.{◌≡◌};

use crate::records::{Record, RecordFault, record_bytes};
use memory::numbers::number_at;

#[derive(Clone, Copy, PartialEq, Eq, Debug)]
pub enum Step {
    Perform { card: u8, position: u32 },
    PerformRecorded { card: u8, position: u32, word: u32 },
    Cache { card: u8, address: u32 },
    WriteBack { card: u8, address: u32 },
    Purge { card: u8, address: u32 },
}

fn step_of(kind: u8, card: u8, place: u32, word: u32) -> Result<Step, RecordFault>
    ensures { result ≡ step_of kind card place word }
{
    match (kind, word) {
        (1, 0) => Ok(Step::Perform {
            card,
            position: place,
        }),
        (2, _) => Ok(Step::PerformRecorded {
            card,
            position: place,
            word,
        }),
        (3, 0) => Ok(Step::Cache {
            card,
            address: place,
        }),
        (4, 0) => Ok(Step::WriteBack {
            card,
            address: place,
        }),
        (5, 0) => Ok(Step::Purge {
            card,
            address: place,
        }),
        _ => Err(RecordFault::Field),
    }
}

impl Record for Step {
    ghost typed = { StepTyped };

    ghost encoded = { encode_step };

    ghost decoded = { decode_step };

    ghost width = { step_width };

    ghost twelve = { Prim.search rules };

    ghost reads_back = { step_reads_back };

    ghost writes_back = { step_writes_back };

    fn encode(self) -> [u8; 12] {
        match self {
            Step::Perform { card, position } => record_bytes((1, card, 0, 0), position, 0),
            Step::PerformRecorded {
                card,
                position,
                word,
            } => record_bytes((2, card, 0, 0), position, word),
            Step::Cache { card, address } => record_bytes((3, card, 0, 0), address, 0),
            Step::WriteBack { card, address } => record_bytes((4, card, 0, 0), address, 0),
            Step::Purge { card, address } => record_bytes((5, card, 0, 0), address, 0),
        }
    }

    fn decode(row: &[u8]) -> Result<Step, RecordFault> {
        let [kind, card, 0, 0, rest @ ..] = row else {
            return Err(RecordFault::Field);
        };
        if rest.len() != 8 {
            return Err(RecordFault::Field);
        }
        step_of(*kind, *card, number_at(rest, 0), number_at(rest, 4))
    }
}
