ghost use Rattle.std.specs.Prelude.{◌≡◌, ◌≤◌, length};

use thiserror::Error;

// Why a text takes no more.
#[derive(Clone, Copy, PartialEq, Eq, Debug, Error)]
pub enum TextFault {
    // The table has no room for the next line.
    #[error("the report does not fit")]
    Full,
}

// A text in lent bytes, of which the first `len` are written.
// Kept: a table and a length, since the caller lends the table of a report.
#[derive(Drop)]
pub struct Text<'a> {
    bytes: &'a mut [u8],
    len: usize,
    ghost inside: { len ≤ length bytes.now },
}

impl<'a> Text<'a> {
    ghost use Rattle.report.specs.Texts.{Appended, empty_page, page_of};

    // A text in which nothing is written yet.
    pub fn new(bytes: &'a mut [u8]) -> Text<'a>
        ensures empty { page_of result ≡ empty_page bytes.old }
        ensures same { result.bytes.ghost_name ≡ bytes.entry.ghost_name }
    {
        Text { bytes, len: 0 }
    }

    // How many bytes are written.
    pub fn len(&self) -> usize
        ensures { result ≡ (page_of self.now).len }
    {
        self.len
    }

    // Puts a part behind what is written, whole or not at all.
    pub(crate) fn append(&mut self, part: &[u8]) -> Result<(), TextFault>
        ensures appended { Appended (page_of self.old) part.now (page_of self.new) result }
        ensures same { self.new.bytes.ghost_name ≡ self.old.bytes.ghost_name }
    {
        let Text { bytes, len } = self;
        if part.len() > bytes.len() - *len {
            return Err(TextFault::Full);
        }
        let end = *len + part.len();
        bytes[*len..end].copy_from_slice(part);
        *len = end;
        Ok(())
    }
}
