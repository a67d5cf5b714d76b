//! Both ends of the range of a sample, and bits copied by words.
ghost use Rattle.std.specs.Prelude.{◌+◌, ◌*◌, ◌^◌, ◌<◌, ◌≤◌, length};
ghost use Rattle.sample_bits.specs.SampleRate.{IsSampleWidth};

use sample_bits::{Iq, RawIq, copy_bits};
use std::process::Abort;

// The range of a width has both of its ends, and nothing beyond.
fn compare_range<const M: u32>(rt: &impl Abort, least: i32, greatest: i32)
    requires { IsSampleWidth M }
{
    let below = least.saturating_sub(1);
    let above = greatest.saturating_add(1);
    for (i, q, fits) in [
        (least, greatest, true),
        (greatest, least, true),
        (below, 0, false),
        (0, below, false),
        (above, 0, false),
        (0, above, false),
    ] {
        assert_eq!(rt;
            Iq::<M>::narrow(RawIq { i, q }).is_some(),
            fits,
            "({i}, {q})"
        );
    }
}

#[test]
fn narrow_takes_both_ends_and_nothing_beyond(rt: HostRuntime) {
    compare_range::<4>(&rt, -8, 7);
    compare_range::<15>(&rt, -16384, 16383);
    compare_range::<20>(&rt, -524288, 524287);
}

// The bits of a sample as a word, and the sample of this word.
fn compare_word<const M: u32>(rt: &impl Abort, i: i32, q: i32, word: u64)
    requires width { IsSampleWidth M }
    requires bits { word < 2 ^ (2 * M) }
{
    let sample = Iq::<M>::deinterleave(word);
    assert_eq!(rt; sample.wide(), RawIq { i, q });
    assert_eq!(rt; sample.interleave(), word);
}

// With I at the greatest and Q at the least value, I has all bits but the highest, and Q the highest alone.
#[test]
fn words_of_both_ends_weave_and_part(rt: HostRuntime) {
    compare_word::<4>(&rt, 7, -8, 0x95);
    compare_word::<4>(&rt, -8, 7, 0x6a);
    compare_word::<15>(&rt, 16383, -16384, 0x2555_5555);
    compare_word::<15>(&rt, -16384, 16383, 0x1aaa_aaaa);
    compare_word::<15>(&rt, 1, -1, 0x2aaa_aaab);
    compare_word::<20>(&rt, 524287, -524288, 0x95_5555_5555);
    compare_word::<20>(&rt, -524288, 524287, 0x6a_aaaa_aaaa);
}

// The copy bit by bit.
fn copy_bits_plain(src: &[u8], from: usize, dst: &mut [u8], at: usize, count: usize)
    requires short { length src.now + length dst.old < 2 ^ 32 }
    requires source { from + count ≤ 8 * length src.now }
    requires room { at + count ≤ 8 * length dst.old }
{
    for j in 0..count {
        let (source, target) = (from + j, at + j);
        let bit = src[source / 8] >> (source % 8) & 1;
        let others = dst[target / 8] & !(1 << (target % 8));
        dst[target / 8] = others | bit << (target % 8);
    }
}

#[test]
fn bits_copied_by_words_are_those_copied_one_by_one(rt: HostRuntime) {
    // Octets that no shift makes alike: multiples of 73.
    let mut src = [0_u8; 32];
    for i in 0..32 {
        src[i] = (i as u8).wrapping_mul(73).wrapping_add(41);
    }
    for count in 0..200 {
        for from in 0..10 {
            for at in 0..10 {
                for fill in [0x00, 0xff] {
                    let mut by_words = [fill; 29];
                    let mut by_bits = [fill; 29];
                    copy_bits(&src, from, &mut by_words, at, count);
                    copy_bits_plain(&src, from, &mut by_bits, at, count);
                    assert_eq!(&rt; by_words, by_bits, "{count} bits from {from} to {at}");
                }
            }
        }
    }
}
