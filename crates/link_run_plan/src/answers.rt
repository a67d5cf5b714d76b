// The answers on a plan, as texts on their way to a sink.
ghost use Rattle.std.specs.Prelude.{◌≡◌, ◌+◌, ◌<◌, ◌≤◌, ◌++◌, length, OnOk, OnErr};
ghost use Rattle.link_base.specs.Faults.{HasCause};
ghost use Rattle.link_text.specs.Gathered.{Gathers, BreaksOff, text_capacity};
ghost use Rattle.link_text.specs.Printed.{lines_below};
ghost use Rattle.link_run_feed.specs.Given.{IsGiven};
ghost use Rattle.link_run_plan.specs.Texts.{delay_line, need_line, yes_text, no_text, fault_text};

use carrier_plan::PlanText;
use link_base::{Failed, Sink};
use link_run_feed::Status;
use link_text::TextBuffer;
use plan_checker::Checked;

// Writes the text in hand, and then gives this status.
fn give<K: Sink>(status: Status, text: &mut TextBuffer, out: &mut K) -> Status
    ensures { IsGiven status text.old (K.taken out.old) (K.taken out.new) result }
{
    match text.flush(out) {
        Ok(()) => status,
        Err(Failed) => Status::WriteFault,
    }
}

// The line of carrier `c`.
#[tactic(auto, unfolding(crate::specs::Texts::delay_line))]
fn put_delay(checked: &Checked, c: usize, text: &mut TextBuffer)
    requires carrier { c < length checked.now.carriers }
    requires room { length text.old + 128 ≤ text_capacity }
    ensures { text.new ≡ text.old ++ delay_line checked.now c }
{
    text.put(b"carrier ");
    text.put_number(c as u64);
    text.put(b" delay ");
    text.put_number(checked.delay(c));
    text.put(b"\n");
}

// The line of flow `f`.
#[tactic(auto, unfolding(crate::specs::Texts::need_line))]
fn put_need(checked: &Checked, f: usize, text: &mut TextBuffer)
    requires flow { f < length checked.now.flows }
    requires room { length text.old + 128 ≤ text_capacity }
    ensures { text.new ≡ text.old ++ need_line checked.now f }
{
    text.put(b"flow ");
    text.put_number(f as u64);
    text.put(b" holds ");
    text.put_number(checked.need(f));
    text.put(b"\n");
}

// The lines of all carriers.
fn put_delays<K: Sink>(checked: &Checked, text: &mut TextBuffer, out: &mut K) -> Result<(), Failed>
    ensures cause { HasCause (K.taken out.old).faults (K.taken out.new).faults result }
    ensures puts { OnOk result (Gathers (lines_below (delay_line checked.now) (length checked.now.carriers)) text.old (K.taken out.old) text.new (K.taken out.new)) }
    ensures fails { OnErr result (BreaksOff (lines_below (delay_line checked.now) (length checked.now.carriers)) text.old (K.taken out.old) (K.taken out.new)) }
{
    for c in 0..checked.plan().carriers.len() {
        match text.make_room(128, out) {
            Ok(()) => put_delay(checked, c, text),
            Err(failed) => return Err(failed),
        }
    }
    Ok(())
}

// The lines of all flows.
fn put_needs<K: Sink>(checked: &Checked, text: &mut TextBuffer, out: &mut K) -> Result<(), Failed>
    ensures cause { HasCause (K.taken out.old).faults (K.taken out.new).faults result }
    ensures puts { OnOk result (Gathers (lines_below (need_line checked.now) (length checked.now.flows)) text.old (K.taken out.old) text.new (K.taken out.new)) }
    ensures fails { OnErr result (BreaksOff (lines_below (need_line checked.now) (length checked.now.flows)) text.old (K.taken out.old) (K.taken out.new)) }
{
    for f in 0..checked.plan().flows.len() {
        match text.make_room(128, out) {
            Ok(()) => put_need(checked, f, text),
            Err(failed) => return Err(failed),
        }
    }
    Ok(())
}

/// Says yes, the delay of each carrier, and what the buffer of each flow has to hold.
pub fn give_yes<K: Sink>(checked: &Checked, out: &mut K) -> Status
    ensures { IsGiven Status.Done (yes_text checked.now) (K.taken out.old) (K.taken out.new) result }
{
    let mut text = TextBuffer::new();
    text.put(b"yes\n");
    match put_delays(checked, &mut text, out) {
        Ok(()) => {}
        Err(Failed) => return Status::WriteFault,
    }
    match put_needs(checked, &mut text, out) {
        Ok(()) => give(Status::Done, &mut text, out),
        Err(Failed) => Status::WriteFault,
    }
}

/// Says the first failure.
#[tactic(auto, unfolding(crate::specs::Texts::no_text))]
pub fn give_no<K: Sink>(rule: u32, item: u32, out: &mut K) -> Status
    ensures { IsGiven (Status.No rule item) (no_text rule item) (K.taken out.old) (K.taken out.new) result }
{
    let mut text = TextBuffer::new();
    text.put(b"no ");
    text.put_number(u64::from(rule));
    text.put(b" ");
    text.put_number(u64::from(item));
    text.put(b"\n");
    give(Status::No { rule, item }, &mut text, out)
}

/// Says the fault in the text of a plan.
#[tactic(auto, unfolding(crate::specs::Texts::fault_text))]
pub fn give_fault<K: Sink>(fault: PlanText, out: &mut K) -> Status
    ensures { IsGiven (Status.PlanText fault) (fault_text fault) (K.taken out.old) (K.taken out.new) result }
{
    let mut text = TextBuffer::new();
    text.put(fault.line().as_str().as_bytes());
    text.put(b"\n");
    give(Status::PlanText(fault), &mut text, out)
}
