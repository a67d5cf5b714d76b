//! Captures whose control words carry a management channel, and runs of any length.
use super::*;

/// The length of a run in whose control words the fast channel carries one frame, a5.
const RUN: u64 = 33;

/// The octets of the fast channel in the control words of the frames from 20 on, as they were laid out by hand.
const FAST: [u8; 14] = [
    0x7f, 0x44, 0xad, 0xb5, 0xd6, 0x5a, 0x6b, 0xad, 0xb5, 0xd6, 0x5b, 0x37, 0xcb, 0xff,
];

/// The octet of the control word of frame `n`, as far as a replay reads it.
fn control_octet(n: u64) -> u8 {
    match n.checked_sub(20) {
        Some(place) if place < 14 => FAST[place as usize],
        _ => 0,
    }
}

/// The capture of the packets of the run, each of one frame, but for one that is lost.
fn capture_without(alloc: Global, lost: Option<u64>) -> Result<String, NoMemory> {
    let mut file = String::new(alloc);
    writeln!(file, "capture2 {RUN} 0 20")?;
    for n in 0..RUN + 1 {
        if lost != Some(n) {
            let (p, q, octet) = (n % 4, n / 4 % 4, control_octet(n));
            writeln!(
                file,
                "{n} 020000000001020000000002fc3d02070010{q:04x}{p:04x}{octet:02x}0000{ZEROS}"
            )?;
        }
    }
    file.push_str("end\n")?;
    Ok(file)
}

/// What is printed of these packets.
fn text_without(alloc: Global, lost: Option<u64>) -> Result<String, NoMemory> {
    let mut text = String::new(alloc);
    for n in 0..RUN {
        let tick = n + 3;
        if lost == Some(n + 1) {
            writeln!(text, "{tick} 0 {n} -\n{tick} fast missed")?;
        } else {
            writeln!(text, "{tick} 0 {n} 0 0")?;
        }
    }
    match lost {
        Some(_) => text.push_str("flow 0 taken 33 missed 1\nend\n")?,
        None => text.push_str("35 fast a5\nflow 0 taken 34 missed 0\nend\n")?,
    }
    Ok(text)
}

#[test]
fn a_management_frame_is_told_at_the_tick_of_its_end_unless_a_packet_of_it_is_lost(
    rt: HostRuntime,
) -> Result<(), Fail> {
    for lost in [None, Some(25)] {
        let capture = capture_without(rt.alloc(), lost)?;
        let text = text_without(rt.alloc(), lost)?;
        let capture = Some(capture.as_str());
        compare(&rt, rt.alloc(), PLAN, capture, text.as_str(), Status::Done)?;
    }
    Ok(())
}

/// The plan of wide carriers on option 7, whose symbols are carried.
fn widest(alloc: Global) -> Result<String, NoMemory> {
    let mut changes = Vec::from_slice(alloc, &plans::WIDE)?;
    changes.push(("option = 3", "option = 7"))?;
    changes.push(("mode = \"bytes\"", "mode = \"tunnel\""))?;
    changed(alloc, changes.as_slice())
}

#[test]
fn the_longest_run_takes_no_memory_for_its_length(rt: HostRuntime) -> Result<(), Fail> {
    let plan = widest(rt.alloc())?;
    let capture = "capture2 1099511627776 0 0\n35 00\nx\nend\n";
    let text =
        "34 0 0 -\n34 0 1 -\n34 0 2 -\n34 0 3 -\n34 0 4 -\n34 0 5 -\n34 0 6 -\n34 0 7 -\n34 1 0 -\n34 1 1 -\n34 1 2 -\n34 1 3 -\n34 1 4 -\n34 1 5 -\n34 1 6 -\n34 1 7 -\nbad 3 number\n";
    let status = Status::FeedBad {
        line: 3,
        reason: Reason::Number,
    };
    compare(&rt, rt.alloc(), plan.as_str(), Some(capture), text, status)
}
