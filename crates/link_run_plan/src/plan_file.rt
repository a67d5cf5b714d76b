// Reads the file of a plan.
ghost use Rattle.std.specs.Prelude.{◌≡◌, take, IsTrue, Some, IfOk, IsErrOf};
ghost use Rattle.link_base.specs.Shelf.{SameFiles};
ghost use Rattle.link_run_feed.specs.FaultCounts.{FaultCounts};
ghost use Rattle.link_run_plan.specs.PlanFile.{plan_limit, IsPlanFile, FailsAtFile, FailsToRead};
ghost use Rattle.link_run_plan.specs.declared.plan_file.FileError.TheVariants.{Memory};

use link_base::{Failed, Shelf, fill};
use std::alloc::{AllocError, Global};

/// The most octets of a plan's file that are read: one more than a plan may have.
const PLAN_LIMIT: usize = 65_537;

/// Why a file was not read.
#[derive(Clone, Copy, Debug, PartialEq, Eq)]
pub enum FileError {
    Fault,
    Memory,
}

impl From<AllocError> for FileError {
    ghost from_gives = { λ _ e. e ≡ Memory };

    fn from(_: AllocError) -> Self {
        FileError::Memory
    }
}

// Reads the selected file, up to its first 65,537 octets.
fn read_selected<H: Shelf>(alloc: Global, shelf: &mut H) -> Result<Vec<u8>, FileError>
    ensures files { SameFiles (H.shown shelf.old) (H.shown shelf.new) }
    ensures reads { FaultCounts (IsErrOf result FileError.Fault) (H.shown shelf.old).faults (H.shown shelf.new).faults }
    ensures octets { IsTrue (H.shown shelf.old).tells → IfOk result (λ octets. octets.items ≡ take plan_limit (H.shown shelf.old).left) }
    ensures chosen { IsTrue (H.shown shelf.old).tells → (H.shown shelf.new).chosen ≡ (H.shown shelf.old).chosen }
    ensures fault { IsTrue (H.shown shelf.old).tells → IsErrOf result FileError.Fault → FailsToRead (H.shown shelf.old) (H.shown shelf.new) }
{
    let mut octets = vec![in alloc; 0u8; PLAN_LIMIT]?;
    match fill(shelf, octets.as_mut_slice()) {
        Ok(count) => {
            octets.truncate(count);
            Ok(octets)
        }
        Err(Failed) => Err(FileError::Fault),
    }
}

/// Selects a file and reads it, up to its first 65,537 octets.
pub fn read_plan_file<H: Shelf>(
    alloc: Global,
    shelf: &mut H,
    name: &str,
) -> Result<Vec<u8>, FileError>
    ensures files { SameFiles (H.shown shelf.old) (H.shown shelf.new) }
    ensures reads { FaultCounts (IsErrOf result FileError.Fault) (H.shown shelf.old).faults (H.shown shelf.new).faults }
    ensures octets { IsTrue (H.shown shelf.old).tells → IfOk result (λ octets. IsPlanFile name.now (H.shown shelf.old).held octets.items) }
    ensures chosen { IsTrue (H.shown shelf.old).tells → ¬ IsErrOf result FileError.Fault → (H.shown shelf.new).chosen ≡ Some name.now }
    ensures fault { IsTrue (H.shown shelf.old).tells → IsErrOf result FileError.Fault → FailsAtFile name.now (H.shown shelf.old) (H.shown shelf.new) }
{
    match shelf.select(name) {
        Ok(()) => read_selected(alloc, shelf),
        Err(Failed) => Err(FileError::Fault),
    }
}
