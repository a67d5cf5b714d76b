// The records of a capture.
ghost use Rattle.std.specs.Prelude.{◌≡◌, ◌≤◌, length, take, IfOk, IfErr, Ok, Err};
ghost use Rattle.link_text.specs.Decimals.{decimal_value};
ghost use Rattle.link_text.specs.Hexadecimal.{spelled_octets};
ghost use Rattle.link_run_capture.specs.Capture.{at_most, latest_tick, record_by, record_of};

use link_run_feed::Reason;
use link_text::{at_first_space, decimal, octets};

/// The greatest tick of a record.
const LATEST_TICK: u64 = 1 << 40;

/// The greatest number of octets that the digits of a line spell.
pub const MOST_OCTETS: usize = 2048;

/// The tick of a record, and the number of its octets.
#[derive(Clone, Copy, Debug, PartialEq, Eq)]
pub struct Arrival {
    pub tick: u64,
    pub length: usize,
}

// Reads the two fields of a record, and puts its octets to the front of `into`.
fn read_fields(tick: &[u8], hex: &[u8], into: &mut [u8; MOST_OCTETS]) -> Result<Arrival, Reason>
    requires { length hex.now ≤ 4096 }
    ensures ok { IfOk result (λ arrival. record_by (at_most latest_tick (decimal_value tick.now)) (spelled_octets hex.now)
        ≡ Ok (record { tick = arrival.tick; octets = take arrival.length into.new })) }
    ensures length { IfOk result (λ arrival. arrival.length ≤ 2048) }
    ensures err { IfErr result (λ reason. record_by (at_most latest_tick (decimal_value tick.now)) (spelled_octets hex.now) ≡ Err reason) }
{
    let Some(tick) = decimal(tick, LATEST_TICK) else {
        return Err(Reason::Number);
    };
    match octets(hex, into) {
        Some(length) => Ok(Arrival { tick, length }),
        None => Err(Reason::Hex),
    }
}

/// Reads a record, `TICK HEX`, and puts its octets to the front of `into`. After an `Err` the octets there are open.
#[tactic(auto, unfolding(crate::specs::Capture::record_of))]
pub fn read_record(line: &[u8], into: &mut [u8; MOST_OCTETS]) -> Result<Arrival, Reason>
    requires { length line.now ≤ 4096 }
    ensures ok { IfOk result (λ arrival. record_of line.now ≡ Ok (record { tick = arrival.tick; octets = take arrival.length into.new })) }
    ensures length { IfOk result (λ arrival. arrival.length ≤ 2048) }
    ensures err { IfErr result (λ reason. record_of line.now ≡ Err reason) }
{
    match at_first_space(line) {
        Some((tick, hex)) => read_fields(tick, hex, into),
        None => read_fields(line, b"", into),
    }
}
