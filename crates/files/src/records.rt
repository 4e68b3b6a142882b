// Records of 12 bytes, and the entries among them.
ghost use Rattle.files.specs.Encoding.{record_bytes, encode_entry, CardEntryTyped, ReadsBack, WritesBack};
ghost use Rattle.files.specs.Faults.{RefusedWith, record_fault_number};
ghost use Rattle.files.specs.Recording.{entry_width, entry_reads_back, entry_writes_back};
ghost use Rattle.files.specs.Records.{entry_of, decode_entry};
ghost use Rattle.files.specs.declared.records.RecordFault.{RecordFault};
ghost use Rattle.files.specs.declared.records.RecordFault.TheVariants.{Field};
ghost use Rattle.std.proofs.Common.{rules};
ghost use Rattle.std.specs.Prelude.{◌≡◌, ℕ, List, length, Err, Result, ◌≢◌};

use memory::numbers::number_at;
use orders::entries::{Entry, Mark, UnknownMark};

pub(crate) const RECORD_BYTES: usize = 12;

// Why a record is refused.
#[derive(Clone, Copy, PartialEq, Eq, Debug)]
pub enum RecordFault {
    // A field is against the layout.
    Field,
}

impl RecordFault {
    // The refusal's number. Kept: a fault has a number, a layer and a place, and a `From` for `u32` would not say which.
    pub fn number(&self) -> u32
        ensures { result ≡ record_fault_number self.now }
    {
        match self {
            RecordFault::Field => 16,
        }
    }
}

impl From<UnknownMark> for RecordFault {
    ghost from_gives = { λ _ f. f ≡ Field };

    fn from(_unknown: UnknownMark) -> RecordFault {
        RecordFault::Field
    }
}

// A record that is refused, with its place among those of its section.
#[derive(Clone, Copy, PartialEq, Eq, Debug)]
pub struct BadRecord<F> {
    pub place: u32,
    pub fault: F,
}

// What stands in a file as a record of 12 bytes.
pub trait Record: Copy {
    // What the code's types say of its fields.
    ghost typed: { Self → Type 0 };

    // Its bytes.
    ghost encoded: { Self → List ℕ };

    // What the bytes of a record hold.
    ghost decoded: { List ℕ → Result Self RecordFault };

    // The record. Each value of the type has one: none is against the layout.
    fn encode(self) -> [u8; 12]
        ensures { result ≡ encoded self };

    // What is in a record; one that has not 12 bytes is refused.
    fn decode(row: &[u8]) -> Result<Self, RecordFault>
        ensures decoded { result ≡ decoded row.now }
        ensures number { RefusedWith record_fault_number 16 result };

    // A record has 12 bytes.
    ghost width: { (x : Self) → length (encoded x) ≡ 12 };

    ghost twelve: { (bs : List ℕ) → (length bs ≢ 12) → decoded bs ≡ Err Field };

    // What is written is read back.
    ghost reads_back: { ReadsBack typed encoded decoded };

    // What is read is written as the bytes that it came from.
    ghost writes_back: { WritesBack encoded decoded };
}

// A record's four bytes and two numbers.
#[tactic(auto, unfolding(crate::specs::Encoding::number_bytes))]
pub(crate) fn record_bytes(head: (u8, u8, u8, u8), place: u32, word: u32) -> [u8; 12]
    ensures { result ≡ record_bytes head.0 head.1 head.2 head.3 place word }
{
    let (a, b, c, d) = head;
    let [p0, p1, p2, p3] = place.to_le_bytes();
    let [w0, w1, w2, w3] = word.to_le_bytes();
    [a, b, c, d, p0, p1, p2, p3, w0, w1, w2, w3]
}

// An entry with the card whose program it belongs to.
#[derive(Clone, Copy)]
pub struct CardEntry {
    pub card: u8,
    pub entry: Entry<u32>,
}

fn entry_of(
    kind: u8,
    mark: u8,
    mask: u8,
    address: u32,
    word: u32,
) -> Result<Entry<u32>, RecordFault>
    ensures { result ≡ entry_of kind mark mask address word }
{
    match (kind, mark, mask, address, word) {
        (1, _, 0, _, 0) => Ok(Entry::Load {
            mark: Mark::try_from(mark)?,
            address,
        }),
        (2, _, 0, _, _) => Ok(Entry::Store {
            mark: Mark::try_from(mark)?,
            address,
            word,
        }),
        (3, 0, _, 0, 0) => Ok(Entry::Barrier { mask }),
        _ => Err(RecordFault::Field),
    }
}

impl Record for CardEntry {
    ghost typed = { CardEntryTyped };

    ghost encoded = { encode_entry };

    ghost decoded = { decode_entry };

    ghost width = { entry_width };

    ghost twelve = { Prim.search rules };

    ghost reads_back = { entry_reads_back };

    ghost writes_back = { entry_writes_back };

    fn encode(self) -> [u8; 12] {
        let card = self.card;
        match self.entry {
            Entry::Load { mark, address } => record_bytes((card, 1, mark.into(), 0), address, 0),
            Entry::Store {
                mark,
                address,
                word,
            } => record_bytes((card, 2, mark.into(), 0), address, word),
            Entry::Barrier { mask } => record_bytes((card, 3, 0, mask), 0, 0),
        }
    }

    fn decode(row: &[u8]) -> Result<CardEntry, RecordFault> {
        let [card, kind, mark, mask, rest @ ..] = row else {
            return Err(RecordFault::Field);
        };
        if rest.len() != 8 {
            return Err(RecordFault::Field);
        }
        let entry = entry_of(*kind, *mark, *mask, number_at(rest, 0), number_at(rest, 4))?;
        Ok(CardEntry { card: *card, entry })
    }
}
