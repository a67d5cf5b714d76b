// The windows, the numbers and the buffer of the packets of a flow.
ghost use Rattle.std.specs.Prelude.{IsTrue, ◌≡◌, ◌≤◌, ◌↔◌};
ghost use Rattle.plan_checker.specs.Timing.{HasRoom, HasSequenceNumbers, HasWindow, IsPlayedInTime};
ghost use Rattle.link_base.specs.Window.{IsMostHeld, most_held};

use carrier_plan::Flow;

pub(crate) fn has_window(flow: &Flow) -> bool
    ensures { IsTrue result ↔ HasWindow flow.now }
{
    flow.lmin <= flow.lmax && flow.lmax <= 100_000
}

pub(crate) fn is_played_in_time(flow: &Flow, playout: u32) -> bool
    ensures { IsTrue result ↔ IsPlayedInTime playout flow.now }
{
    let later = u64::from(flow.frames.saturating_sub(1));
    later + u64::from(flow.lmax) <= u64::from(playout) && playout <= 200_000
}

pub(crate) fn has_sequence_numbers(flow: &Flow) -> bool
    requires frames { 1 ≤ flow.now.frames }
    requires window { flow.now.lmin ≤ flow.now.lmax }
    ensures { IsTrue result ↔ HasSequenceNumbers flow.now }
{
    let Flow {
        frames,
        lmin,
        lmax,
        p,
        q,
        ..
    } = *flow;
    (1..=65_536).contains(&p)
        && (1..=65_536).contains(&q)
        && u64::from((lmax - lmin) / frames) < u64::from(p) * u64::from(q)
}

// The greatest number of packets that may have to be held at one tick.
pub(crate) fn packets_held(flow: &Flow, playout: u32) -> u64
    requires frames { 1 ≤ flow.now.frames }
    requires delays { flow.now.lmin ≤ playout }
    ensures value { result ≡ most_held flow.now.frames flow.now.lmin playout }
    ensures most { IsMostHeld flow.now.frames flow.now.lmin playout result }
{
    (u64::from(playout - flow.lmin) + 1).div_ceil(u64::from(flow.frames))
}

pub(crate) fn has_room(flow: &Flow, playout: u32) -> bool
    requires frames { 1 ≤ flow.now.frames }
    requires delays { flow.now.lmin ≤ playout }
    ensures { IsTrue result ↔ HasRoom playout flow.now }
{
    (1..=4_096).contains(&flow.cap) && packets_held(flow, playout) <= u64::from(flow.cap)
}
