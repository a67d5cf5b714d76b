// Plays the packets of a drill.
ghost use Rattle.std.specs.Prelude.{◌≡◌, ◌*◌, ◌++◌, ◌≤◌, List, IfOk, length};
ghost use Rattle.link_base.specs.Record.{Record};
ghost use Rattle.link_receiver.specs.Output.{all_entries};
ghost use Rattle.link_receiver.specs.Sessions.{StandsFor};
ghost use Rattle.plan_checker.specs.Run.{ticks_of_run};
ghost use Rattle.plan_checker.specs.WordSize.{IsLineOption, word_size};
ghost use Rattle.link_drill.specs.Arrivals.{arrivals_at, arrivals_below, arrivals_by};
ghost use Rattle.link_drill.specs.DrillPlan.{drill_plan};
ghost use Rattle.link_drill.specs.DrillStream.{drill_stream};
ghost use Rattle.link_drill.specs.Tally.{IsTally};

use crate::fates::Fate;
use crate::packet::Packet;
use crate::run_plan::TICKS;
use crate::tally::Tally;
use link_base::NoMemory;
use link_receiver::AnySession;
use plan_checker::Checked;
use sample_bits::RawIq;
use std::alloc::Global;

// A packet arrives at the present tick as often as its fate says.
fn deliver(session: &mut AnySession, octets: &[u8], fate: Fate)
    ensures plan { session.new.plan ≡ session.old.plan }
    ensures frames { session.new.frames ≡ session.old.frames }
    ensures tick { session.new.tick ≡ session.old.tick }
    ensures stands { (records : List Record) → StandsFor session.old records
        → StandsFor session.new (records ++ arrivals_by session.old.tick octets.now fate) }
{
    let Fate::Arrives { tick, twice } = fate else {
        return;
    };
    if tick != session.now() {
        return;
    }
    session.arrive(octets);
    if twice {
        session.arrive(octets);
    }
}

// All packets do, by their numbers.
fn deliver_all(session: &mut AnySession, packets: &[Packet], fates: &[Fate])
    requires { length packets.now ≤ length fates.now }
    ensures plan { session.new.plan ≡ session.old.plan }
    ensures frames { session.new.frames ≡ session.old.frames }
    ensures tick { session.new.tick ≡ session.old.tick }
    ensures stands { (records : List Record) → StandsFor session.old records
        → StandsFor session.new (records ++ arrivals_at packets.now fates.now session.old.tick) }
{
    for (i, packet) in packets.iter().enumerate() {
        deliver(session, packet.as_slice(), fates[i]);
    }
}

/// Counts what a session of a run of 256 ticks plays, where the packets arrive as their fates say.
pub(crate) fn play(
    alloc: Global,
    checked: &Checked,
    drawn: &[RawIq],
    packets: &[Packet],
    fates: &[Fate],
) -> Result<Tally, NoMemory>
    requires plan { checked.now ≡ drill_plan checked.now.option }
    requires known { IsLineOption checked.now.option }
    requires drawn { length drawn.now ≡ 4 * (256 * word_size checked.now.option) }
    requires fates { length packets.now ≤ length fates.now }
    ensures { IfOk result (λ tally. IsTally (drill_stream (word_size checked.now.option) 256 drawn.now)
        (all_entries checked.now 256 (arrivals_below packets.now fates.now (ticks_of_run checked.now 256))) tally) }
{
    link_receiver::entries_are_settled();
    let words = checked.word_octets();
    let mut session = AnySession::begin(alloc, checked, TICKS)?;
    let mut tally = Tally::NOTHING;
    for _ in 0..checked.ticks(TICKS) {
        deliver_all(&mut session, packets, fates);
        session.tick();
        tally.count(session.entries(), drawn, words);
    }
    Ok(tally)
}
