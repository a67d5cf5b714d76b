// A call that goes on by a plan which meets the rules.
ghost use Rattle.std.specs.Prelude.{◌≢◌, IfOk, IfErr};
ghost use Rattle.carrier_plan.specs.PlanOf.{plan_of};
ghost use Rattle.link_run_plan.specs.PlanCalls.{IsJudged, GoesOnBy, EndsAtPlan};

use crate::answers::{give_fault, give_no};
use crate::plan_file::{FileError, read_plan_file};
use carrier_plan::{ReadError, read};
use link_base::{Shelf, Sink};
use link_run_feed::Status;
use plan_checker::{Checked, check};
use std::alloc::Global;

/// Reads the plan of this name and judges it. An `Err` is the status of the whole call, whose text was written: the file
/// could not be read, is no plan, or fails a rule, or memory was wanting.
pub fn on_plan<H: Shelf, K: Sink>(
    alloc: Global,
    name: &str,
    shelf: &mut H,
    out: &mut K,
) -> Result<Checked, Status>
    ensures goes_on { IfOk result (λ checked. GoesOnBy name.now checked (H.shown shelf.old) (H.shown shelf.new) (K.taken out.old) (K.taken out.new)) }
    ensures ends { IfErr result (EndsAtPlan name.now (H.shown shelf.old) (H.shown shelf.new) (K.taken out.old) (K.taken out.new)) }
    ensures usage { IfErr result (λ status. status ≢ Status.Usage) }
{
    match read_plan_file(alloc, shelf, name) {
        Ok(octets) => judge(alloc, octets.as_slice(), out),
        Err(FileError::Fault) => Err(Status::ReadFault),
        Err(FileError::Memory) => Err(Status::NoMemory),
    }
}

/// Judges the octets of a plan's file, and gives the answer where they are no plan that meets the rules.
pub(crate) fn judge<K: Sink>(alloc: Global, octets: &[u8], out: &mut K) -> Result<Checked, Status>
    ensures judged { IsJudged (plan_of octets.now) (K.taken out.old) (K.taken out.new) result }
    ensures usage { IfErr result (λ status. status ≢ Status.Usage) }
{
    match read(alloc, octets) {
        Ok(plan) => match check(plan) {
            Ok(checked) => Ok(checked),
            Err(refused) => Err(give_no(refused.rule, refused.item, out)),
        },
        Err(ReadError::Text(fault)) => Err(give_fault(fault, out)),
        Err(ReadError::NoMemory) => Err(Status::NoMemory),
    }
}
