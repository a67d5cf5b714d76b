// Sends the samples of a drill.
ghost use Rattle.std.specs.Prelude.{◌≡◌, ◌+◌, ◌-◌, ◌*◌, ◌/◌, ◌<◌, ◌≤◌, All, IfOk, OnOk, length, min, slice_index};
ghost use Rattle.plan_checker.specs.WordSize.{IsLineOption, word_size};
ghost use Rattle.sample_bits.specs.Samples.{IsWithin};
ghost use Rattle.link_sender.specs.HandedIn.{with_samples};
ghost use Rattle.link_sender.specs.Senders.{StandsFor};
ghost use Rattle.link_sender.specs.Stream.{Stream};
ghost use Rattle.link_drill.specs.DrillPlan.{drill_flow, drill_plan};
ghost use Rattle.link_drill.specs.DrillStream.{drill_stream};
ghost use Rattle.link_drill.specs.Sent.{HasSent, IsRun, packets_of};

use crate::packet::Packet;
use crate::run_plan::TICKS;
use control_words::Announce;
use link_base::NoMemory;
use link_sender::AnySender;
use plan_checker::Checked;
use sample_bits::RawIq;
use std::alloc::Global;

// The ticks up to that at which the window of the last packet opens.
const SENDING_TICKS: u64 = 270;

// Hands in the four samples of a carrier that are due, all of which have its width.
fn hand_in_four(sender: &mut AnySender, c: usize, samples: &[RawIq])
    requires run { IsRun sender.old }
    requires tick { sender.old.tick < 256 }
    requires carrier { c < length sender.old.plan.carriers }
    requires four { length samples.now ≡ 4 }
    requires widths { All (IsWithin 15) samples.now }
    requires once { slice_index sender.old.handed c ≡ 4 * sender.old.tick }
    ensures run { IsRun sender.new }
    ensures plan { sender.new.plan ≡ sender.old.plan }
    ensures tick { sender.new.tick ≡ sender.old.tick }
    ensures stands { (σ : Stream) → StandsFor sender.old σ → StandsFor sender.new (with_samples σ c samples.now) }
{
    match sender.hand_in(c, samples) {
        Ok(()) => {}
        Err(_) => unreachable!(),
    }
}

// Hands in the samples that are due of all carriers.
fn hand_in_due(sender: &mut AnySender, drawn: &[RawIq], words: usize)
    requires run { IsRun sender.old }
    requires tick { sender.old.tick < 256 }
    requires words { words ≡ word_size sender.old.plan.option }
    requires drawn { length drawn.now ≡ 4 * (256 * words) }
    requires widths { All (IsWithin 15) drawn.now }
    requires before { HasSent sender.old words drawn.now sender.old.tick 0 }
    ensures run { IsRun sender.new }
    ensures plan { sender.new.plan ≡ sender.old.plan }
    ensures tick { sender.new.tick ≡ sender.old.tick }
    ensures sent { HasSent sender.new words drawn.now sender.old.tick words }
{
    let first = sender.now() as usize * words;
    for c in 0..words {
        let start = 4 * (first + c);
        hand_in_four(sender, c, &drawn[start..start + 4]);
    }
}

// Goes to the next tick. In a tick of the run the samples that are due are handed in before.
fn send_tick(sender: &mut AnySender, drawn: &[RawIq], words: usize)
    requires run { IsRun sender.old }
    requires tick { sender.old.tick < 270 }
    requires words { words ≡ word_size sender.old.plan.option }
    requires drawn { length drawn.now ≡ 4 * (256 * words) }
    requires widths { All (IsWithin 15) drawn.now }
    requires before { HasSent sender.old words drawn.now (min sender.old.tick 256) 0 }
    ensures run { IsRun sender.new }
    ensures plan { sender.new.plan ≡ sender.old.plan }
    ensures tick { sender.new.tick ≡ sender.old.tick + 1 }
    ensures sent { HasSent sender.new words drawn.now (min (sender.old.tick + 1) 256) 0 }
{
    if sender.now() < TICKS {
        hand_in_due(sender, drawn, words);
        sender.tick();
    } else {
        sender.tick();
    }
}

// Keeps the packet whose window opens at the tick that was sent last, if there is one.
fn keep_ready(
    alloc: Global,
    sender: &AnySender,
    drawn: &[RawIq],
    words: usize,
    packets: &mut Vec<Packet>,
) -> Result<(), NoMemory>
    requires run { IsRun sender.now }
    requires tick { sender.now.tick ≤ 270 }
    requires words { words ≡ word_size sender.now.plan.option }
    requires sent { HasSent sender.now words drawn.now (min sender.now.tick 256) 0 }
    requires before { packets.old.items ≡ packets_of sender.now.plan (drill_stream words 256 drawn.now) (drill_flow words) ((sender.now.tick - 11) / 4) }
    ensures { OnOk result (packets.new.items ≡ packets_of sender.now.plan (drill_stream words 256 drawn.now) (drill_flow words) ((sender.now.tick - 10) / 4)) }
{
    link_sender::packets_are_settled();
    link_sender::packets_are_determined();
    if let Some(octets) = sender.ready(0) {
        packets.push(Packet::copied(alloc, octets)?)?;
    }
    Ok(())
}

// The packets of the run that the sender begins.
fn send_all(
    alloc: Global,
    sender: &mut AnySender,
    drawn: &[RawIq],
    words: usize,
) -> Result<Vec<Packet>, NoMemory>
    requires run { IsRun sender.old }
    requires tick { sender.old.tick ≡ 0 }
    requires words { words ≡ word_size sender.old.plan.option }
    requires drawn { length drawn.now ≡ 4 * (256 * words) }
    requires widths { All (IsWithin 15) drawn.now }
    requires before { HasSent sender.old words drawn.now 0 0 }
    ensures { IfOk result (λ packets. packets.items ≡ packets_of sender.old.plan (drill_stream words 256 drawn.now) (drill_flow words) 65) }
{
    let mut packets = Vec::new(alloc);
    for _ in 0..SENDING_TICKS {
        send_tick(sender, drawn, words);
        keep_ready(alloc, sender, drawn, words, &mut packets)?;
    }
    Ok(packets)
}

/// The packets of a run of the drawn samples.
pub(crate) fn send(
    alloc: Global,
    checked: &Checked,
    drawn: &[RawIq],
) -> Result<Vec<Packet>, NoMemory>
    requires plan { checked.now ≡ drill_plan checked.now.option }
    requires known { IsLineOption checked.now.option }
    requires drawn { length drawn.now ≡ 4 * (256 * word_size checked.now.option) }
    requires widths { All (IsWithin 15) drawn.now }
    ensures { IfOk result (λ packets. packets.items ≡ packets_of checked.now (drill_stream (word_size checked.now.option) 256 drawn.now)
        (drill_flow (word_size checked.now.option)) 65) }
{
    let announce = Announce {
        version: 1,
        hdlc: 0,
        pointer: 0,
        l1: 0,
    };
    let mut sender = AnySender::begin_with(alloc, checked, TICKS, announce)?;
    send_all(alloc, &mut sender, drawn, checked.word_octets())
}
