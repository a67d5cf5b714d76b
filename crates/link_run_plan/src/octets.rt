// The answer of `check` to octets that were read, as a value.
ghost use Rattle.std.specs.Prelude.{IfOk, IsTrue};
ghost use Rattle.link_run_plan.specs.OfOctets.{AnswersFile, ChecksFile, IsTold, is_verdict};

use crate::answers::give_yes;
use crate::growing_sink::GrowingSink;
use crate::judgement::judge;
use link_base::{NoMemory, Sink};
use link_run_feed::Status;
use std::alloc::Global;

/// A status of the program, and the text that goes with it.
#[derive(Debug, Drop)]
pub struct Answer {
    pub status: Status,
    pub text: Vec<u8>,
}

/// What `check` answers to a file with these octets.
pub fn check_octets(alloc: Global, octets: &[u8]) -> Result<Answer, NoMemory>
    ensures answers { IfOk result (λ answer. AnswersFile octets.now answer.status answer.text.items) }
    ensures checks { IfOk result (λ answer. ChecksFile octets.now answer.status answer.text.items) }
    ensures verdict { IfOk result (λ answer. IsTrue (is_verdict answer.status)) }
{
    let mut out = GrowingSink::new(alloc);
    let status = tell(alloc, octets, &mut out);
    match status {
        Status::Done | Status::No { .. } | Status::PlanText(_) => Ok(Answer {
            status,
            text: out.into_octets(),
        }),
        // the sink fails where memory is wanting
        _ => Err(NoMemory),
    }
}

// Judges octets, and writes the text of the answer.
fn tell<K: Sink>(alloc: Global, octets: &[u8], out: &mut K) -> Status
    ensures { IsTrue (is_verdict result) → IsTold octets.now (K.taken out.old) (K.taken out.new) result }
{
    match judge(alloc, octets, out) {
        Ok(checked) => give_yes(&checked, out),
        Err(status) => status,
    }
}
