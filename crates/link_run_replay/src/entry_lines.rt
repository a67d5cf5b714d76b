// The samples that leave a session, and its flows, as text.
ghost use Rattle.std.specs.Prelude.{◌≡◌, ◌+◌, ◌-◌, ◌<◌, ◌≤◌, ◌++◌, ◌∷◌, [], List, length, slice_get, Some, OnOk, OnErr};
ghost use Rattle.link_base.specs.Faults.{HasCause};
ghost use Rattle.link_receiver.specs.Output.{entries_at, entries_of};
ghost use Rattle.link_base.specs.Record.{Record};
ghost use Rattle.link_receiver.specs.Sessions.{StandsFor};
ghost use Rattle.link_text.specs.Gathered.{Gathers, BreaksOff, text_capacity};
ghost use Rattle.link_run_replay.specs.EntryLines.{entry_lines, flow_line, flow_lines};

use link_base::{Failed, Sink};
use link_receiver::{AnySession, Counts};
use link_run_entries::{ROOM, TickText, put_run};
use link_text::TextBuffer;

/// How many octets a line has at most.
pub const LINE: usize = 128;

// Appends the line of a flow.
#[tactic(auto, unfolding(crate::specs::EntryLines::flow_line))]
fn put_flow(f: usize, counts: Counts, text: &mut TextBuffer)
    requires { length text.old + 128 ≤ text_capacity }
    ensures { text.new ≡ text.old ++ flow_line f counts.taken counts.packets }
{
    text.put(b"flow ");
    text.put_number(f as u64);
    text.put(b" taken ");
    text.put_number(counts.taken);
    text.put(b" missed ");
    text.put_number(counts.packets.saturating_sub(counts.taken));
    text.put(b"\n");
}

// Appends the lines of the samples of carrier `c` that left at this tick, which was played last.
fn put_carrier(session: &AnySession, tick: &TickText, c: u32, text: &mut TextBuffer)
    requires tick { session.now.tick ≡ tick.now.tick + 1 }
    requires carrier { c < length session.now.plan.carriers }
    requires room { length text.old + 2560 ≤ text_capacity }
    ensures { (records : List Record) → StandsFor session.now records
        → text.new ≡ text.old ++ entry_lines (entries_of session.now.plan session.now.frames records tick.now.tick c) }
{
    let leaving = session.leaving(c as usize);
    put_run(
        text,
        tick,
        c,
        leaving.number,
        leaving.samples,
        leaving.marks,
    );
}

/// Appends the lines of the samples that left at tick `tick`, which was played last, of a plan of so many carriers.
pub fn put_leaving<K: Sink>(
    session: &AnySession,
    carriers: u32,
    tick: u64,
    text: &mut TextBuffer,
    out: &mut K,
) -> Result<(), Failed>
    requires carriers { carriers ≡ length session.now.plan.carriers }
    requires tick { session.now.tick ≡ tick + 1 }
    ensures cause { HasCause (K.taken out.old).faults (K.taken out.new).faults result }
    ensures puts { OnOk result ((records : List Record) → StandsFor session.now records
        → Gathers (entry_lines (entries_at session.now.plan session.now.frames records tick)) text.old (K.taken out.old) text.new (K.taken out.new)) }
    ensures fails { OnErr result ((records : List Record) → StandsFor session.now records
        → BreaksOff (entry_lines (entries_at session.now.plan session.now.frames records tick)) text.old (K.taken out.old) (K.taken out.new)) }
{
    let printed = TickText::new(tick);
    for c in 0..carriers {
        match text.make_room(ROOM, out) {
            Ok(()) => put_carrier(session, &printed, c, text),
            Err(failed) => return Err(failed),
        }
    }
    Ok(())
}

/// Appends the lines of the flows of the plan, which has so many.
pub fn put_flows<K: Sink>(
    session: &AnySession,
    flows: usize,
    text: &mut TextBuffer,
    out: &mut K,
) -> Result<(), Failed>
    requires { flows ≡ length session.now.plan.flows }
    ensures cause { HasCause (K.taken out.old).faults (K.taken out.new).faults result }
    ensures puts { OnOk result ((records : List Record) → StandsFor session.now records
        → Gathers (flow_lines session.now.plan session.now.frames records) text.old (K.taken out.old) text.new (K.taken out.new)) }
    ensures fails { OnErr result ((records : List Record) → StandsFor session.now records
        → BreaksOff (flow_lines session.now.plan session.now.frames records) text.old (K.taken out.old) (K.taken out.new)) }
{
    for f in 0..flows {
        match text.make_room(LINE, out) {
            Ok(()) => put_flow(f, session.counts(f), text),
            Err(failed) => return Err(failed),
        }
    }
    Ok(())
}
