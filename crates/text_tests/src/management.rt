//! What is found in the control words of a few frames. The channels' octets were laid out by hand.

ghost use Rattle.std.specs.Prelude.{◌≡◌};
ghost use Rattle.link_base.specs.WordSize.{IsWordSize};
ghost use Rattle.control_words.specs.Announcement.{IsWithinTable};

use control_words::Announce;
use link_base::MemSink;
use link_run_management::ManagementReader;
use link_text::TextBuffer;
use std::alloc::Global;
use std::process::Abort;
use std::test::Fail;

/// The octets of the fast channel with one frame, a5, in words of one octet: they stand in the frames from 20 on.
const FAST: [u8; 34] = [
    0, 0, 0, 0, 0, 0, 0, 0, 0, 0, 0, 0, 0, 0, 0, 0, 0, 0, 0, 0, 0x7f, 0x44, 0xad, 0xb5, 0xd6, 0x5a,
    0x6b, 0xad, 0xb5, 0xd6, 0x5b, 0x37, 0xcb, 0xff,
];

/// The octets of the slow channel with one frame, `123456789`, in two words of sixteen octets.
const SLOW: [[u8; 16]; 2] = [
    [
        0x7e, 0x7e, 0x7e, 0x7e, 0x7e, 0x7e, 0x7e, 0x7e, 0x7e, 0x7e, 0x7e, 0x7e, 0x31, 0x32, 0x33,
        0x34,
    ],
    [
        0x35, 0x36, 0x37, 0x38, 0x39, 0x6e, 0x90, 0x7e, 0x7e, 0x7e, 0x7e, 0x7e, 0x7e, 0x7e, 0x7e,
        0x7e,
    ],
];

fn announce(hdlc: u8, pointer: u8) -> Announce
    ensures { result ≡ record { version = 1; hdlc = hdlc; pointer = pointer; l1 = 0 } }
{
    Announce {
        version: 1,
        hdlc,
        pointer,
        l1: 0,
    }
}

/// Hands in the control words of frames from frame 0 on, each played two ticks later, and compares the lines.
fn compare<const Y: usize>(
    rt: &impl Abort,
    alloc: Global,
    a: Announce,
    words: &[Option<[u8; Y]>],
    lines: &str,
) -> Result<(), Fail>
    requires size { IsWordSize Y }
    requires within { IsWithinTable Y a }
{
    let mut reader = ManagementReader::begin(alloc, Y, a)?;
    let mut text = TextBuffer::new();
    let mut out = MemSink::new(alloc, 4096, 4096)?;
    for (n, word) in words.iter().enumerate() {
        let tick = n as u64 + 2;
        match word {
            Some(octets) => {
                let octets = octets.as_slice();
                assert_eq!(rt; octets.len(), Y);
                reader.read(tick, Some(octets), &mut text, &mut out)?;
            }
            None => reader.read(tick, None, &mut text, &mut out)?,
        }
    }
    text.flush(&mut out)?;
    assert_eq!(rt; out.octets(), lines.as_bytes());
    Ok(())
}

#[test]
fn a_fast_frame_and_a_cut(rt: HostRuntime) -> Result<(), Fail> {
    let mut words = [Some([0]); 34];
    for (place, octet) in FAST.iter().enumerate() {
        words[place] = Some([*octet]);
    }
    compare::<1>(&rt, rt.alloc(), announce(0, 20), &words, "35 fast a5\n")?;
    words[25] = None;
    compare::<1>(&rt, rt.alloc(), announce(0, 20), &words, "27 fast missed\n")
}

#[test]
fn a_slow_frame_over_frames_that_carry_none_of_it(rt: HostRuntime) -> Result<(), Fail> {
    let mut words = [None; 66];
    words[1] = Some(SLOW[0]);
    words[65] = Some(SLOW[1]);
    let line = "67 slow 313233343536373839\n";
    compare::<16>(&rt, rt.alloc(), announce(6, 0), &words, line)?;
    words[65] = None;
    compare::<16>(&rt, rt.alloc(), announce(6, 0), &words, "67 slow missed\n")
}
