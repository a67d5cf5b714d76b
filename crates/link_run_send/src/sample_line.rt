// A sample as a line.
ghost use Rattle.std.specs.Prelude.{◌≡◌};
ghost use Rattle.link_run_send.specs.SampleLine.{sample_of};

use link_text::signed_pair;
use sample_bits::RawIq;

/// The sample of a line, if it is two numbers of 32 bits with one space between them.
#[inline(always)]
pub fn read_sample(line: &[u8]) -> Option<RawIq>
    ensures { result ≡ sample_of line.now }
{
    let (i, q) = signed_pair(line)?;
    Some(RawIq { i, q })
}
