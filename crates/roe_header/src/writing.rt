ghost use Rattle.std.specs.Prelude.{◌≡◌, ◌+◌, ◌-◌, ◌≤◌, [], ◌++◌, length, replicate, IsTrue};
ghost use Rattle.arrayvec.specs.ArrayVec.{array_vec_len};
ghost use Rattle.roe_header.specs.Layout.{fields, is_subtype, two_octets, four_octets, packet_octets};

use crate::Packet;
use crate::packet::ETHER_TYPE;
use arrayvec::ArrayVec;
use byteorder::{BigEndian, ByteOrder};

/// The least octets of an Ethernet frame without its FCS (IEEE 802.3, clause 3).
const LEAST: usize = 60;

/// A number in two octets, the high octet first.
fn two_octets(n: u16) -> [u8; 2]
    ensures { result ≡ two_octets n }
{
    let mut octets = [0; 2];
    BigEndian::write_u16(&mut octets, n);
    octets
}

/// A number in four octets, the highest octet first.
fn four_octets(n: u32) -> [u8; 4]
    ensures { result ≡ four_octets n }
{
    let mut octets = [0; 4];
    BigEndian::write_u32(&mut octets, n);
    octets
}

/// Appends octets, for which there is room.
fn append(out: &mut ArrayVec<u8, 1514>, octets: &[u8])
    requires { array_vec_len out.old + length octets.now ≤ 1514 }
    ensures { out.new.items ≡ out.old.items ++ octets.now }
{
    out.try_extend_from_slice(octets).unwrap();
}

/// Appends zeros up to 60 octets.
fn pad(out: &mut ArrayVec<u8, 1514>)
    ensures { out.new.items ≡ out.old.items ++ replicate (60 - array_vec_len out.old) 0 }
{
    if out.len() < LEAST {
        let zeros = [0; LEAST];
        append(out, &zeros[..LEAST - out.len()]);
    }
}

/// Writes the octets of a packet, with zeros up to 60.
#[tactic(auto, unfolding(crate::specs::Layout::packet_octets))]
pub fn write(packet: &Packet<'_>, out: &mut ArrayVec<u8, 1514>)
    requires sub { IsTrue (is_subtype packet.now.sub) }
    requires payload { length packet.now.payload.now ≤ 1492 }
    requires empty { out.old.items ≡ [] }
    ensures { out.new.items ≡ packet_octets (fields packet.now) }
{
    append(out, &packet.dst);
    append(out, &packet.src);
    append(out, &two_octets(ETHER_TYPE));
    append(out, &[packet.sub, packet.flow]);
    append(out, &two_octets(packet.payload.len() as u16));
    append(out, &four_octets(packet.seq));
    append(out, packet.payload);
    pad(out);
}
