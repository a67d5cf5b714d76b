//! Control words at each place of a hyperframe, and what is read from them.
ghost use Rattle.std.specs.Prelude.{◌≡◌};
ghost use Rattle.link_base.specs.WordSize.{IsWordSize};
ghost use Rattle.control_words.specs.Announcement.{IsWithinTable};

use control_words::{
    Announce, BadControl, announce_of, control_word, fast_octet, managed_len, numbers_of,
    slow_octet,
};
use hyperframe::place_of;
use std::process::Abort;

/// The first frame of hyperframe 77 of radio frame 123h.
const START: u64 = 38_400 * 0x123 + 256 * 77;

fn announce(hdlc: u8, pointer: u8, l1: u8) -> Announce
    ensures { result ≡ record { version = 1; hdlc = hdlc; pointer = pointer; l1 = l1 } }
{
    Announce {
        version: 1,
        hdlc,
        pointer,
        l1,
    }
}

/// Compares the control word of frame `n`, which carries these octets of the channels.
fn compare_word<const Y: usize>(rt: &impl Abort, n: u64, a: Announce, channels: &[u8], word: &[u8])
    requires size { IsWordSize Y }
    requires within { IsWithinTable Y a }
{
    let x = place_of(n).x;
    assert_eq!(rt; managed_len::<Y>(x, a), channels.len());
    assert_eq!(rt; control_word::<Y>(n, a, channels).as_slice(), word);
}

/// Compares words of one hyperframe. Each row has X, what the channels carry in the word, and the word.
fn compare_words<const Y: usize>(rt: &impl Abort, a: Announce, rows: &[(u8, &[u8], &[u8])])
    requires size { IsWordSize Y }
    requires within { IsWithinTable Y a }
{
    for (x, channels, word) in rows {
        compare_word::<Y>(rt, START + u64::from(*x), a, channels, word);
    }
}

#[test]
fn words_of_one_octet(rt: HostRuntime) {
    let rows: [(u8, &[u8], &[u8]); 12] = [
        (0, &[], &[0xBC]),
        (64, &[], &[77]),
        (128, &[], &[0x23]),
        (192, &[], &[0x01]),
        (2, &[], &[1]),
        (66, &[], &[2]),
        (130, &[], &[31]),
        (194, &[], &[63]),
        (1, &[0xA1], &[0xA1]),
        (193, &[0xA2], &[0xA2]),
        (127, &[0xF1], &[0xF1]),
        (3, &[], &[0]),
    ];
    compare_words::<1>(&rt, announce(2, 63, 31), &rows);
}

#[test]
fn words_of_two_octets(rt: HostRuntime) {
    let rows: [(u8, &[u8], &[u8]); 12] = [
        (0, &[], &[0xBC, 0x50]),
        (64, &[], &[77, 0]),
        (128, &[], &[0x23, 0]),
        (192, &[], &[0x01, 0]),
        (2, &[], &[1, 0]),
        (66, &[], &[3, 0]),
        (130, &[], &[5, 0]),
        (194, &[], &[20, 0]),
        (1, &[0xA1, 0xA2], &[0xA1, 0xA2]),
        (65, &[0xA3, 0xA4], &[0xA3, 0xA4]),
        (20, &[0xF1, 0xF2], &[0xF1, 0xF2]),
        (19, &[], &[0, 0]),
    ];
    compare_words::<2>(&rt, announce(3, 20, 5), &rows);
}

#[test]
fn words_of_five_octets(rt: HostRuntime) {
    let rows: [(u8, &[u8], &[u8]); 12] = [
        (0, &[], &[0xBC, 0x50, 0x50, 0x50, 0x50]),
        (64, &[], &[77, 0, 0, 0, 0]),
        (128, &[], &[0x23, 0, 0, 0, 0]),
        (192, &[], &[0x01, 0, 0, 0, 0]),
        (2, &[], &[1, 0, 0, 0, 0]),
        (66, &[], &[4, 0, 0, 0, 0]),
        (130, &[], &[0, 0, 0, 0, 0]),
        (194, &[], &[0, 0, 0, 0, 0]),
        (1, &[1, 2, 3, 4], &[1, 2, 3, 4, 0]),
        (129, &[5, 6, 7, 8], &[5, 6, 7, 8, 0]),
        (63, &[], &[0, 0, 0, 0, 0]),
        (191, &[], &[0, 0, 0, 0, 0]),
    ];
    compare_words::<5>(&rt, announce(4, 0, 0), &rows);
}

#[test]
fn words_of_sixteen_octets(rt: HostRuntime) {
    let carried: [u8; 16] = [1, 2, 3, 4, 5, 6, 7, 8, 9, 10, 11, 12, 13, 14, 15, 16];
    let rows: [(u8, &[u8], &[u8]); 11] = [
        (
            0,
            &[],
            &[
                0xBC, 80, 80, 80, 80, 80, 80, 80, 80, 80, 80, 80, 80, 80, 80, 80,
            ],
        ),
        (64, &[], &[77, 0, 0, 0, 0, 0, 0, 0, 0, 0, 0, 0, 0, 0, 0, 0]),
        (
            128,
            &[],
            &[0x23, 0, 0, 0, 0, 0, 0, 0, 0, 0, 0, 0, 0, 0, 0, 0],
        ),
        (
            192,
            &[],
            &[0x01, 0, 0, 0, 0, 0, 0, 0, 0, 0, 0, 0, 0, 0, 0, 0],
        ),
        (2, &[], &[1, 0, 0, 0, 0, 0, 0, 0, 0, 0, 0, 0, 0, 0, 0, 0]),
        (66, &[], &[6, 0, 0, 0, 0, 0, 0, 0, 0, 0, 0, 0, 0, 0, 0, 0]),
        (130, &[], &[16, 0, 0, 0, 0, 0, 0, 0, 0, 0, 0, 0, 0, 0, 0, 0]),
        (194, &[], &[40, 0, 0, 0, 0, 0, 0, 0, 0, 0, 0, 0, 0, 0, 0, 0]),
        (193, &carried, &carried),
        (104, &carried, &carried),
        (39, &[], &[0, 0, 0, 0, 0, 0, 0, 0, 0, 0, 0, 0, 0, 0, 0, 0]),
    ];
    compare_words::<16>(&rt, announce(6, 40, 16), &rows);
}

#[test]
fn words_without_channels(rt: HostRuntime) {
    let a = announce(0, 0, 0);
    compare_word::<4>(&rt, 2, a, &[], &[1, 0, 0, 0]);
    compare_word::<4>(&rt, 64, a, &[], &[0, 0, 0, 0]);
    compare_word::<4>(&rt, 320, a, &[], &[1, 0, 0, 0]);
}

#[test]
fn octets_of_the_channels(rt: HostRuntime) {
    let a = announce(1, 62, 0);
    for (x, y, slow, fast) in [
        (1, 0, true, false),
        (1, 1, false, false),
        (65, 0, false, false),
        (129, 0, true, false),
        (61, 0, false, false),
        (62, 3, false, true),
        (255, 0, false, true),
    ] {
        assert_eq!(rt; slow_octet::<4>(x, y, a), slow);
        assert_eq!(rt; fast_octet::<4>(x, y, a), fast);
    }
}

/// What control words of five octets announce with some octets changed. Each row has X, the place in
/// the word and the octet.
fn answer(changes: &[(usize, usize, u8)]) -> Result<Announce, BadControl> {
    let mut control = [0; 1280];
    let start = [
        (0, 0, 0xBC),
        (0, 1, 0xC5),
        (2, 0, 1),
        (66, 0, 0xFD),
        (130, 0, 0xF5),
        (194, 0, 0xD4),
    ];
    for (x, y, octet) in start.iter().chain(changes) {
        if *x < 256 && *y < 5 {
            control[5 * *x + *y] = *octet;
        }
    }
    announce_of::<5>(&control)
}

#[test]
fn the_first_octet_outside_its_table(rt: HostRuntime) {
    assert_eq!(rt; answer(&[]), Ok(announce(5, 20, 21)));
    assert_eq!(rt;
        answer(&[(0, 1, 0x50), (194, 0, 0x40)]),
        Ok(announce(5, 0, 21))
    );
    for (changes, bad) in [
        ([(0, 0, 0xBD), (2, 0, 0)], BadControl::Sync),
        ([(0, 1, 0x51), (2, 0, 0)], BadControl::Sync),
        ([(2, 0, 2), (66, 0, 7)], BadControl::Version { got: 2 }),
        ([(66, 0, 0xFE), (194, 0, 1)], BadControl::Hdlc { got: 0xFE }),
        ([(66, 0, 0x0F), (194, 0, 1)], BadControl::Hdlc { got: 0x0F }),
        (
            [(194, 0, 0xC1), (130, 0, 0)],
            BadControl::Pointer { got: 0xC1 },
        ),
        (
            [(194, 0, 0x13), (130, 0, 0)],
            BadControl::Pointer { got: 0x13 },
        ),
    ] {
        assert_eq!(rt; answer(&changes), Err(bad));
    }
}

#[test]
fn numbers_of_a_hyperframe(rt: HostRuntime) {
    let mut control = [0; 256];
    control[64] = 77;
    control[128] = 0x23;
    control[192] = 0xF1;
    assert_eq!(rt; numbers_of::<1>(&control), (77, 0x123));
}
