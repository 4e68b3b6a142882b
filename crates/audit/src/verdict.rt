// What an audit comes to.
use crate::fault::FileFault;

// All records are accepted, and there are so many steps; or the first refusal.
pub type Verdict = Result<u32, FileFault>;

// Why an audit is refused.
#[derive(Clone, Copy, PartialEq, Eq, Debug)]
pub enum AuditFault {
    TooShort,
}
