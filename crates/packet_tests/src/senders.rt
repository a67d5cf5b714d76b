//! The first packets of a run, in each mode.
ghost use Rattle.std.specs.Prelude.{◌≡◌, ◌<◌, length};
ghost use Rattle.plan_checker.specs.Run.{samples_due};

use crate::plans::{PLAN, checked};
use control_words::Announce;
use link_base::NoMemory;
use link_sender::AnySender;
use plan_checker::Checked;
use sample_bits::RawIq;
use std::alloc::Global;
use std::process::Abort;
use std::test::Fail;

/// What is changed in the plan, and the octets of packets 0 and 1 from the subtype on, without the zeros at their ends.
type Row = (&'static str, &'static str, &'static [u8], &'static [u8]);

const ROWS: [Row; 4] = [
    (
        "lmin",
        "lmin",
        &[2, 7, 0, 16, 0, 0, 0, 0, 0xbc],
        &[2, 7, 0, 16, 0, 0, 0, 1, 0, 0xb3, 0xaa],
    ),
    (
        "bytes",
        "aware",
        &[3, 7, 0, 3, 0, 0, 0, 0, 0xbc],
        &[3, 7, 0, 3, 0, 0, 0, 1, 0, 0xb3, 0xaa],
    ),
    (
        "bytes",
        "tunnel",
        &[
            2, 7, 0, 20, 0, 0, 0, 0, 0x7c, 0x19, 0x6d, 0xb4, 0xd1, 0x46, 0x1b, 0x6d, 0xb4, 0xd1,
            0x46, 0x1b, 0x6d, 0xb4, 0xd1, 0x46, 0x1b, 0x6d, 0xb4, 0xd1,
        ],
        &[2, 7, 0, 20, 0, 0, 0, 1, 0x46, 0x4f],
    ),
    (
        "start = 0",
        "start = 4",
        &[2, 7, 0, 16, 0, 0, 0, 0, 0xbc],
        &[2, 7, 0, 16, 0, 0, 0, 1, 0, 0x30, 0xab, 0x0a],
    ),
];

/// No management channels.
const ANNOUNCE: Announce = Announce {
    version: 1,
    hdlc: 0,
    pointer: 0,
    l1: 0,
};

// The next packet begins with these octets from the subtype on.
fn compare(rt: &impl Abort, sender: &AnySender, octets: &[u8])
    requires { 0 < length sender.now.plan.flows }
{
    let packet = sender.ready(0).expect(rt, "a packet");
    assert!(rt; packet.len() == 60);
    assert!(rt; octets.len() <= 46);
    assert_eq!(rt; &packet[14..14 + octets.len()], octets);
}

// Sends a run of one tick, with the sample (5, -3).
fn send(
    rt: &impl Abort,
    alloc: Global,
    checked: &Checked,
    first: &[u8],
    second: &[u8],
) -> Result<(), NoMemory>
    requires carriers { 0 < length checked.now.carriers }
    requires flows { 0 < length checked.now.flows }
    requires due { samples_due checked.now 0 0 ≡ 1 }
{
    let mut sender = AnySender::begin_with(alloc, checked, 1, ANNOUNCE)?;
    let taken = sender.hand_in(0, &[RawIq { i: 5, q: -3 }]);
    assert!(rt; taken.is_ok());
    sender.tick();
    assert!(rt; sender.frame().first() == Some(&0xbc));
    compare(rt, &sender, first);
    sender.tick();
    compare(rt, &sender, second);
    assert!(rt; sender.now() == 2);
    Ok(())
}

#[test]
fn packets_carry_the_samples_of_the_tick_before(rt: HostRuntime) -> Result<(), Fail> {
    for (old, new, first, second) in ROWS {
        let text = PLAN.replacen(rt.alloc(), old, new, 1)?;
        let plan = checked(&rt, rt.alloc(), text.as_str());
        send(&rt, rt.alloc(), &plan, first, second)?;
    }
    Ok(())
}
