//! What a packet carries of a frame, in each mode.
ghost use Rattle.std.specs.Prelude.{◌≡◌, ◌%◌, ◌<◌, ◌≤◌, length, Some, slice_get};
ghost use Rattle.plan_checker.specs.Run.{frame_octets_of};
ghost use Rattle.plan_checker.specs.WordSize.{word_size};

use crate::plans::{IN_PIECES, PLAN, checked};
use basic_frame::Frame;
use line_code::Rd;
use link_base::NoMemory;
use plan_checker::Checked;
use roe_mappers::{Unmapped, map_frame, unmap_frame};
use std::alloc::Global;
use std::process::Abort;
use std::test::Fail;

/// An empty frame that begins a hyperframe.
const FIRST: [u8; 16] = [0xbc, 0, 0, 0, 0, 0, 0, 0, 0, 0, 0, 0, 0, 0, 0, 0];

/// Its symbols from negative disparity on.
const FIRST_SYMBOLS: [u8; 20] = [
    0x7c, 0x19, 0x6d, 0xb4, 0xd1, 0x46, 0x1b, 0x6d, 0xb4, 0xd1, 0x46, 0x1b, 0x6d, 0xb4, 0xd1, 0x46,
    0x1b, 0x6d, 0xb4, 0xd1,
];

/// The sample (5, -3) in IQ bits 0 to 15.
const SECOND: [u8; 16] = [0, 0xb3, 0xaa, 0, 0, 0, 0, 0, 0, 0, 0, 0, 0, 0, 0, 0];

/// The same in IQ bits 0 to 9 and 100 to 105.
const PARTED: [u8; 16] = [0, 0xb3, 0x02, 0, 0, 0, 0, 0, 0, 0, 0, 0, 0, 0xa0, 0x02, 0];

// Compares the octets that carry frame n.
fn compare_mapped(
    rt: &impl Abort,
    alloc: Global,
    plan: &Checked,
    n: u64,
    octets: [u8; 16],
    part: &[u8],
) -> Result<(), NoMemory>
    requires word { word_size plan.now.option ≡ 1 }
    requires flow { 0 < length plan.now.flows }
    requires whole { length part.now ≡ frame_octets_of plan.now 0 }
    requires few { length part.now ≤ 20 }
    requires comma { n % 256 ≡ 0 → slice_get octets 0 ≡ Some 188 }
{
    let mut frame: Frame<1> = Frame::new(alloc)?;
    frame.set_octets(&octets);
    let mut mapped = [0; 20];
    map_frame(plan, 0, &frame, n, Rd::Minus, &mut mapped[..part.len()]);
    assert_eq!(rt; &mapped[..part.len()], part);
    Ok(())
}

// Compares the frame that these octets carry.
fn compare_unmapped(
    rt: &impl Abort,
    alloc: Global,
    plan: &Checked,
    n: u64,
    octets: [u8; 16],
    part: &[u8],
) -> Result<(), NoMemory>
    requires word { word_size plan.now.option ≡ 1 }
    requires flow { 0 < length plan.now.flows }
    requires whole { length part.now ≡ frame_octets_of plan.now 0 }
{
    let mut frame: Frame<1> = Frame::new(alloc)?;
    assert_eq!(rt; unmap_frame(plan, 0, n, part, &mut frame), Unmapped::Good);
    assert_eq!(rt; frame.octets(), octets.as_slice());
    Ok(())
}

// Compares frame n on its way through a packet. The mode `bytes` of the plan may be another.
fn compare(
    rt: &impl Abort,
    alloc: Global,
    text: &str,
    mode: &str,
    n: u64,
    octets: [u8; 16],
    part: &[u8],
) -> Result<(), Fail>
    requires few { length part.now ≤ 20 }
    requires comma { n % 256 ≡ 0 → slice_get octets 0 ≡ Some 188 }
{
    let text = text.replacen(alloc, "bytes", mode, 1)?;
    let plan = checked(rt, alloc, text.as_str());
    assert!(rt; plan.word_octets() == 1);
    assert!(rt; plan.frame_octets(0) == part.len());
    compare_mapped(rt, alloc, &plan, n, octets, part)?;
    compare_unmapped(rt, alloc, &plan, n, octets, part)?;
    Ok(())
}

#[test]
fn frames_are_carried_in_each_mode(rt: HostRuntime) -> Result<(), Fail> {
    let alloc = rt.alloc();
    compare(&rt, alloc, PLAN, "bytes", 1, SECOND, &SECOND)?;
    compare(&rt, alloc, PLAN, "aware", 1, SECOND, &[0x00, 0xb3, 0xaa])?;
    compare(
        &rt,
        alloc,
        IN_PIECES,
        "bytes",
        1,
        PARTED,
        &[0x00, 0xb3, 0xaa],
    )?;
    compare(&rt, alloc, PLAN, "tunnel", 0, FIRST, &FIRST_SYMBOLS)?;
    Ok(())
}

// What the symbols of frame n become.
fn unmapped(alloc: Global, plan: &Checked, n: u64, part: &[u8]) -> Result<Unmapped, NoMemory>
    requires word { word_size plan.now.option ≡ 1 }
    requires flow { 0 < length plan.now.flows }
    requires whole { length part.now ≡ frame_octets_of plan.now 0 }
{
    let mut frame: Frame<1> = Frame::new(alloc)?;
    Ok(unmap_frame(plan, 0, n, part, &mut frame))
}

#[test]
fn the_first_bad_symbol_is_named(rt: HostRuntime) -> Result<(), Fail> {
    // Ten ones, which no disparity spells, as the third symbol.
    let mut third = FIRST_SYMBOLS;
    third[2] = 0xfd;
    third[3] = 0xbf;
    // The symbol of the octet 0 at negative disparity in place of the comma.
    let mut no_comma = FIRST_SYMBOLS;
    no_comma[0] = 0xb9;
    no_comma[1] = 0x18;
    let table = [
        (0, FIRST_SYMBOLS, Unmapped::Good),
        (256, FIRST_SYMBOLS, Unmapped::Good),
        (0, third, Unmapped::BadSymbol { place: 2 }),
        (1, FIRST_SYMBOLS, Unmapped::BadSymbol { place: 0 }),
        (0, no_comma, Unmapped::BadSymbol { place: 0 }),
        (1, no_comma, Unmapped::Good),
    ];
    let text = PLAN.replacen(rt.alloc(), "bytes", "tunnel", 1)?;
    let plan = checked(&rt, rt.alloc(), text.as_str());
    assert!(rt; plan.word_octets() == 1);
    assert!(rt; plan.frame_octets(0) == 20);
    for (n, part, answer) in table {
        assert_eq!(rt; unmapped(rt.alloc(), &plan, n, &part)?, answer);
    }
    Ok(())
}
