// How a call ends.
ghost use Rattle.std.specs.Prelude.{◌≡◌};
ghost use Rattle.link_run_feed.specs.Code.{code_of};

use crate::reason::Reason;
use carrier_plan::PlanText;

/// How a call of the program ended.
#[derive(Clone, Copy, Debug, PartialEq, Eq)]
pub enum Status {
    /// The whole text was written, and all input was read to its end.
    Done,
    /// The plan fails a rule. The rule and the item are the first failure.
    No { rule: u32, item: u32 },
    /// The words are none of the forms.
    Usage,
    /// The file is no plan.
    PlanText(PlanText),
    /// A feed is refused. The line, numbered from 1, is its first bad one.
    FeedBad { line: u64, reason: Reason },
    /// A file could not be opened or read.
    ReadFault,
    /// The text could not be written.
    WriteFault,
    /// Memory could not be had.
    NoMemory,
}

/// The number that the program ends with.
pub fn code(status: &Status) -> u8
    ensures { result ≡ code_of status.now }
{
    match status {
        Status::Done => 0,
        Status::No { .. } => 1,
        Status::Usage => 2,
        Status::PlanText(_) => 3,
        Status::FeedBad { .. } => 4,
        Status::ReadFault => 5,
        Status::WriteFault => 6,
        Status::NoMemory => 7,
    }
}
