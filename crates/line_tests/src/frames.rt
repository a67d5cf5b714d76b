//! Bits at both ends of a frame.
ghost use Rattle.link_base.specs.WordSize.{IsWordSize};

use basic_frame::Frame;
use link_base::NoMemory;
use std::alloc::Global;
use std::process::Abort;

// A frame with bits at both ends of the IQ data block, and a control word.
fn filled<const Y: usize>(alloc: Global) -> Result<Frame<Y>, NoMemory>
    requires { IsWordSize Y }
{
    let mut frame: Frame<Y> = Frame::new(alloc)?;
    frame.set_control(&[0xbc; Y]);
    frame.put_bits(0, &[0b1010_0110], 1, 3);
    frame.put_bits(120 * Y - 5, &[0xff], 3, 5);
    Ok(frame)
}

// Compares the octets of that frame.
fn compare_octets<const Y: usize>(rt: &impl Abort, frame: &Frame<Y>)
    requires { IsWordSize Y }
{
    let octets = frame.octets();
    let ends = [octets[Y - 1], octets[Y], octets[16 * Y - 1]];
    assert_eq!(rt; ends, [0xbc, 0b011, 0xf8]);
    assert_eq!(rt; frame.control(), [0xbc; Y].as_slice());
}

// Compares the bits of that frame.
fn compare_bits<const Y: usize>(rt: &impl Abort, frame: &Frame<Y>)
    requires { IsWordSize Y }
{
    let last = 120 * Y - 1;
    assert_eq!(rt; (frame.bit(0), frame.bit(2)), (true, false));
    assert_eq!(rt; (frame.bit(last - 5), frame.bit(last)), (false, true));

    // The last six bits, to the bits 7 to 12 of two octets.
    let mut read = [0x55; 2];
    frame.get_bits(last - 5, 6, &mut read, 7);
    assert_eq!(rt; read, [0x55, 0x5f]);
}

// A copy of that frame has its octets until it is cleared.
fn compare_copy<const Y: usize>(
    rt: &impl Abort,
    alloc: Global,
    frame: &Frame<Y>,
) -> Result<(), NoMemory>
    requires { IsWordSize Y }
{
    let blank: Frame<Y> = Frame::new(alloc)?;
    let mut copy: Frame<Y> = Frame::new(alloc)?;
    copy.set_octets(frame.octets());
    compare_octets(rt, &copy);
    copy.clear();
    assert_eq!(rt; copy.octets(), blank.octets());
    Ok(())
}

// Each call at one word size.
fn holds_bits<const Y: usize>(rt: &impl Abort, alloc: Global) -> Result<(), NoMemory>
    requires { IsWordSize Y }
{
    let frame: Frame<Y> = filled(alloc)?;
    compare_octets(rt, &frame);
    compare_bits(rt, &frame);
    compare_copy(rt, alloc, &frame)?;
    Ok(())
}

#[test]
fn bits_stand_at_the_ends_of_a_frame_at_each_word_size(rt: HostRuntime) -> Result<(), NoMemory> {
    let alloc = rt.alloc();
    holds_bits::<1>(&rt, alloc)?;
    holds_bits::<2>(&rt, alloc)?;
    holds_bits::<4>(&rt, alloc)?;
    holds_bits::<5>(&rt, alloc)?;
    holds_bits::<8>(&rt, alloc)?;
    holds_bits::<10>(&rt, alloc)?;
    holds_bits::<16>(&rt, alloc)?;
    Ok(())
}
