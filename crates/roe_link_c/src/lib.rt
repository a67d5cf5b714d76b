//! The proved check for programs in C. `include/roe_link.h` declares it.
#![tactic(auto)]

ghost use Rattle.roe_link_c.specs.Answered.{IsAnswered};

use link_run_feed::{Status, code};
use link_run_plan::check_octets;
use std::alloc::Global;

/// The code of a buffer that has no room for the text. No status of the program has it.
const TOO_SHORT: i32 = 9;

/// Answers a plan as the program's `check` answers its file: gives the code of the status, and puts the text into the front
/// of the buffer. `written` is then the octets of the text, also where the buffer has no room for them and stays as it was.
/// Where memory is wanting the buffer stays too, and `written` is 0.
#[unsafe(no_mangle)]
pub extern "C" fn roe_check(alloc: Global, plan: &[u8], out: &mut [u8], written: &mut usize) -> i32
    ensures { IsAnswered plan.now out.old out.new written.new result }
{
    let Ok(answer) = check_octets(alloc, plan) else {
        *written = 0;
        return i32::from(code(&Status::NoMemory));
    };
    let text = answer.text.as_slice();
    *written = text.len();
    if out.len() < text.len() {
        return TOO_SHORT;
    }
    out[..text.len()].copy_from_slice(text);
    i32::from(code(&answer.status))
}

#[cfg(test)]
mod tests;
