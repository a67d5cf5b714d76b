ghost use Rattle.std.specs.Prelude.{◌≡◌, ℕ, ◌+◌, ◌≤◌, List, ◌++◌, length, take, drop, Ok, IfOk, IsTrue};
ghost use Rattle.roe_header.specs.Layout.{Fields, IsWritable, two_at, four_at, is_subtype, packet_octets, parsed, answered, fields, BeginsWith};

use crate::packet::{ETHER_TYPE, HEADER};
use crate::{NotRoe, Packet};
use byteorder::{BigEndian, ByteOrder};

/// The address in the six octets from place `at`.
fn address_at(octets: &[u8], at: usize) -> [u8; 6]
    requires { at + 6 ≤ length octets.now }
    ensures { result ≡ take 6 (drop at octets.now) }
{
    let mut address = [0; 6];
    address.copy_from_slice(&octets[at..at + 6]);
    address
}

/// The number in the two octets from place `at`.
fn two_at(octets: &[u8], at: usize) -> u16
    requires { at + 2 ≤ length octets.now }
    ensures { result ≡ two_at octets.now at }
{
    BigEndian::read_u16(&octets[at..])
}

/// The number in the four octets from place `at`.
fn four_at(octets: &[u8], at: usize) -> u32
    requires { at + 4 ≤ length octets.now }
    ensures { result ≡ four_at octets.now at }
{
    BigEndian::read_u32(&octets[at..])
}

/// Whether a subtype is one of those that are read.
fn is_subtype(sub: u8) -> bool
    ensures { result ≡ is_subtype sub }
{
    matches!(sub, 2..=4)
}

/// The packet at the front of the octets, by the fields of its header.
#[tactic(auto, unfolding(crate::specs::Layout::parsed))]
fn packet_of(octets: &[u8]) -> Result<Packet<'_>, NotRoe>
    ensures { answered result ≡ parsed octets.now }
{
    if octets.len() < HEADER {
        return Err(NotRoe::Short {
            length: octets.len(),
        });
    }
    let ether_type = two_at(octets, 12);
    if ether_type != ETHER_TYPE {
        return Err(NotRoe::EtherType { got: ether_type });
    }
    let sub = octets[14];
    if !is_subtype(sub) {
        return Err(NotRoe::SubType { got: sub });
    }
    let said = two_at(octets, 16);
    let there = octets.len() - HEADER;
    if usize::from(said) > there {
        return Err(NotRoe::Length { said, there });
    }
    Ok(Packet {
        dst: address_at(octets, 0),
        src: address_at(octets, 6),
        sub,
        flow: octets[15],
        seq: four_at(octets, 18),
        payload: &octets[HEADER..HEADER + usize::from(said)],
    })
}

/// The packet at the front of an Ethernet frame's octets, its payload lent. Octets behind the payload
/// are read past.
pub fn parse(octets: &[u8]) -> Result<Packet<'_>, NotRoe>
    ensures exact { answered result ≡ parsed octets.now }
    // What is read stands so in the octets.
    ensures found { IfOk result (λ p. BeginsWith (fields p) octets.now) }
{
    packet_of(octets)
}

/// What was written is read again, whatever octets follow it.
pub fn packet_is_read_back()
    ensures { (f : Fields) (rest : List ℕ) → IsWritable f
        → parsed (packet_octets f ++ rest) ≡ Ok f }
{}
