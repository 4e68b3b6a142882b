// The header of a run file.
ghost use Rattle.std.specs.Prelude.{◌≡◌, ◌≤◌, length};
ghost use Rattle.files.specs.Faults.{header_fault_number};
ghost use Rattle.files.specs.Writing.{field_numbers};
ghost use Rattle.files.specs.Header.{fields_of, entries_start, steps_start, file_end, in_bounds, laid_out, order_meant, header_in};

use crate::records::RECORD_BYTES;
use memory::numbers::number_at;
use orders::chosen::AnyOrder;

// How many bytes a header has: the initial words start behind them.
pub(crate) const HEADER_BYTES: usize = 32;

const MAX_CARDS: u32 = 8;

pub(crate) const MAX_SIZE: u32 = 1024;

pub(crate) const MAX_ENTRIES: u32 = 512;

const LAST_CODE: u32 = 6;

// Why a run file or a day file is refused.
#[derive(Clone, Copy, PartialEq, Eq, Debug)]
pub enum HeaderFault {
    // The header is against the layout or the bounds.
    Broken,
}

impl HeaderFault {
    // The refusal's number. Kept: a fault has a number, a layer and a place, and a `From` for `u32` would not say which.
    pub fn number(&self) -> u32
        ensures { result ≡ header_fault_number self.now }
    {
        match self {
            HeaderFault::Broken => 15,
        }
    }
}

// What a header tells of the run.
#[derive(Clone, Copy, PartialEq, Eq, Debug)]
pub struct Header {
    pub cards: u32,
    // How many words the memory has.
    pub size: u32,
    // The memory order that the writer was handed, if any.
    pub order: Option<AnyOrder>,
    // How many entries and steps the file has.
    pub entries: u32,
    pub steps: u32,
}

// The eight numbers of a header, as they stand in the file.
#[derive(Clone, Copy)]
pub(crate) struct Fields {
    pub(crate) cards: u32,
    pub(crate) size: u32,
    // The code of the memory order.
    pub(crate) code: u32,
    pub(crate) entries: u32,
    pub(crate) entries_at: u32,
    pub(crate) steps: u32,
    pub(crate) steps_at: u32,
    pub(crate) words_at: u32,
}

// The eight numbers in turn.
impl From<Fields> for [u32; 8] {
    ghost from_gives = { λ fields numbers. numbers ≡ field_numbers fields };

    fn from(fields: Fields) -> [u32; 8] {
        [
            fields.cards,
            fields.size,
            fields.code,
            fields.entries,
            fields.entries_at,
            fields.steps,
            fields.steps_at,
            fields.words_at,
        ]
    }
}

impl Fields {
    // Kept: an array of eight numbers, taken apart into the same eight names, is no shorter.
    pub(crate) fn read(bytes: &[u8]) -> Fields
        requires { 32 ≤ length bytes.now }
        ensures { result ≡ fields_of bytes.now }
    {
        Fields {
            cards: number_at(bytes, 0),
            size: number_at(bytes, 4),
            code: number_at(bytes, 8),
            entries: number_at(bytes, 12),
            entries_at: number_at(bytes, 16),
            steps: number_at(bytes, 20),
            steps_at: number_at(bytes, 24),
            words_at: number_at(bytes, 28),
        }
    }

    pub(crate) fn in_bounds(&self) -> bool
        ensures { result ≡ in_bounds self.now }
    {
        1 <= self.cards
            && self.cards <= MAX_CARDS
            && 1 <= self.size
            && self.size <= MAX_SIZE
            && self.code <= LAST_CODE
            && self.entries <= MAX_ENTRIES
    }

    // Where the entries start: behind the initial words.
    fn entries_start(&self) -> usize
        ensures { result ≡ entries_start self.now }
    {
        HEADER_BYTES + 4 * self.size as usize
    }

    // Where the steps start: behind the entries.
    fn steps_start(&self) -> usize
        ensures { result ≡ steps_start self.now }
    {
        self.entries_start() + RECORD_BYTES * self.entries as usize
    }

    // Where the file ends: behind the steps.
    pub(crate) fn file_end(&self) -> usize
        ensures { result ≡ file_end self.now }
    {
        self.steps_start() + RECORD_BYTES * self.steps as usize
    }

    // Whether the sections lie without a gap from the header's end to the end of a file of `len` bytes.
    pub(crate) fn laid_out(&self, len: usize) -> bool
        ensures { result ≡ laid_out self.now len }
    {
        self.words_at as usize == HEADER_BYTES
            && self.entries_at as usize == self.entries_start()
            && self.steps_at as usize == self.steps_start()
            && self.file_end() == len
    }

    pub(crate) fn header(&self) -> Header
        ensures { result ≡ header_in self.now }
    {
        Header {
            cards: self.cards,
            size: self.size,
            order: AnyOrder::try_from(self.code).ok(),
            entries: self.entries,
            steps: self.steps,
        }
    }
}

impl Header {
    // The memory order of the run: tso where none was handed.
    pub fn memory_order(&self) -> AnyOrder
        ensures { result ≡ order_meant self.now.order }
    {
        self.order.unwrap_or(AnyOrder::Tso)
    }
}
