// The packets of a flow, from their first frame to the tick at which they are ready.
ghost use Rattle.std.specs.Prelude.{ℕ, ◌≡◌, ◌==◌, if◌then◌else◌, ◌+◌, ◌*◌, ◌/◌, ◌%◌, ◌<◌, ◌≤◌, ◌^◌, ◌++◌, IfOk, Some, length, slice_get, take, drop, replicate};
ghost use Rattle.std.specs.List.{HoldsAt};
ghost use Rattle.carrier_plan.specs.declared.plan.Mode.{Mode as PlanMode};
ghost use Rattle.plan_checker.specs.Flows.{octets_of_frame};
ghost use Rattle.plan_checker.specs.Packets.{sequence_of};
ghost use Rattle.plan_checker.specs.Rules.{IsGood};
ghost use Rattle.plan_checker.specs.Timing.{HasSequenceNumbers};
ghost use Rattle.plan_checker.specs.WordSize.{word_size};
ghost use Rattle.roe_header.specs.Layout.{four_octets, packet_octets};
ghost use Rattle.roe_mappers.specs.Parts.{IsPart, disparity_after_frame};
ghost use Rattle.plan_checker.specs.Packets.{subtype_of};
ghost use Rattle.link_sender.specs.Rings.{IsBlank, IsRing, PutsPart, WritesPart, front_of, order_of, payload_octets, slot_of};

use arrayvec::ArrayVec;
use basic_frame::Frame;
use carrier_plan::{Flow, Mode};
use line_code::Rd;
use link_base::NoMemory;
use plan_checker::Checked;
use roe_header::{Packet, write};
use roe_mappers::map_frame;
use std::alloc::Global;

// The octets of a packet before its payload, and among them those of the ordering information.
const HEADER: usize = 22;

const ORDER: usize = 18;

/// Packets in slots of one size: packet i in slot i mod `count`. What is the same in all packets of a flow stands in each
/// slot from the beginning.
#[derive(Debug, Drop)]
pub struct PacketRing {
    /// The octets of a packet.
    pub size: usize,
    /// How many slots there are.
    pub count: u64,
    /// The slots, one after another.
    pub octets: Vec<u8>,
}

impl PacketRing {
    /// Slots for the packets of flow `f` that are begun and not yet let go. All their memory is taken here.
    pub fn begin(alloc: Global, checked: &Checked, f: usize) -> Result<PacketRing, NoMemory>
        requires { f < length checked.now.flows }
        ensures { IfOk result (λ ring. HoldsAt (λ flow. IsRing checked.now flow ring) checked.now.flows f) }
    {
        let flow = checked.plan().flows.at(f);
        let blank = blank_packet(alloc, checked, f)?;
        let count = u64::from(flow.lmin.div_ceil(flow.frames)) + 1;
        Ok(PacketRing {
            size: blank.len(),
            count,
            octets: copies(alloc, blank.as_slice(), count)?,
        })
    }

    /// Writes the part of frame `n` into its packet, whose frames before stand there. Says the disparity after the frame.
    pub fn put<const Y: usize>(
        &mut self,
        checked: &Checked,
        f: usize,
        frame: &Frame<Y>,
        n: u64,
        rd: Rd,
    ) -> Rd
        requires flow { f < length checked.now.flows }
        requires ring { HoldsAt (λ flow. IsRing checked.now flow self.old) checked.now.flows f }
        requires word { word_size checked.now.option ≡ Y }
        requires comma { checked.now.mode ≡ PlanMode.Tunnel → n % 256 ≡ 0 → slice_get frame.now 0 ≡ Some 188 }
        ensures ring { HoldsAt (λ flow. IsRing checked.now flow self.new) checked.now.flows f }
        ensures part { HoldsAt (λ flow. PutsPart checked.now flow n rd frame.now self.old self.new) checked.now.flows f }
        ensures disparity { result ≡ disparity_after_frame checked.now.mode n rd frame.now }
    {
        let frames = u64::from(checked.plan().flows.at(f).frames);
        let at = (n / frames % self.count) as usize * self.size;
        let packet = &mut self.octets.as_mut_slice()[at..at + self.size];
        write_part(checked, f, frame, n, rd, packet)
    }

    /// The octets of packet `number`.
    pub fn packet(&self, number: u64) -> &[u8]
        requires count { 1 ≤ self.now.count }
        requires room { length self.now.octets.items ≡ self.now.count * self.now.size }
        ensures { result.now ≡ slot_of self.now number }
    {
        let at = (number % self.count) as usize * self.size;
        &self.octets.as_slice()[at..at + self.size]
    }
}

// A packet of flow `f` whose ordering information and payload are 0.
fn blank_packet(alloc: Global, checked: &Checked, f: usize) -> Result<ArrayVec<u8, 1514>, NoMemory>
    requires { f < length checked.now.flows }
    ensures { IfOk result (λ octets. HoldsAt (λ flow. IsBlank checked.now flow octets.items) checked.now.flows f) }
{
    let plan = checked.plan();
    let flow = plan.flows.at(f);
    let size = flow.frames as usize * checked.frame_octets(f);
    let payload = zeros(alloc, size)?;
    Ok(packet_with(plan.mode, flow, payload.as_slice()))
}

// So many zeros.
fn zeros(alloc: Global, count: usize) -> Result<Vec<u8>, NoMemory>
    requires { count ≤ 1_492 }
    ensures { IfOk result (λ zeros. zeros.items ≡ replicate count 0) }
{
    Ok(vec![in alloc; 0; count]?)
}

// A packet of a flow with this payload, whose ordering information is 0.
fn packet_with(mode: Mode, flow: &Flow, payload: &[u8]) -> ArrayVec<u8, 1514>
    requires id { flow.now.id ≤ 255 }
    requires payload { length payload.now ≤ 1_492 }
    ensures packet { result.items ≡ packet_octets (record {
      dst = flow.now.dst;
      src = flow.now.src;
      sub = subtype_of mode;
      flow = flow.now.id;
      seq = 0;
      payload = payload.now;
    }) }
    ensures short { length result.items ≤ 1_514 }
    ensures dst { length flow.now.dst ≡ 6 }
    ensures src { length flow.now.src ≡ 6 }
{
    let (dst, src) = (address(&flow.dst), address(&flow.src));
    let mut octets = ArrayVec::new();
    let packet = Packet {
        dst,
        src,
        sub: subtype(mode),
        flow: flow.id as u8,
        seq: 0,
        payload,
    };
    write(&packet, &mut octets);
    octets
}

// An address, which has six octets.
fn address(octets: &[u8; 6]) -> [u8; 6]
    ensures same { result ≡ octets.now }
    ensures six { length octets.now ≡ 6 }
{
    *octets
}

// The subtype of the packets of a mode.
fn subtype(mode: Mode) -> u8
    ensures { result ≡ subtype_of mode }
{
    match mode {
        Mode::Tunnel => 2,
        Mode::Bytes => 2,
        Mode::Aware => 3,
    }
}

// The octets so many times, one after another.
fn copies(alloc: Global, octets: &[u8], count: u64) -> Result<Vec<u8>, NoMemory>
    requires few { count ≤ 100_001 }
    requires short { length octets.now ≤ 1_514 }
    ensures length { IfOk result (λ all. length all.items ≡ count * length octets.now) }
    ensures each { IfOk result (λ all. (j : ℕ) → j < count → take (length octets.now) (drop (j * length octets.now) all.items) ≡ octets.now) }
{
    let mut all = Vec::with_capacity(alloc, count as usize * octets.len())?;
    for _ in 0..count {
        all.extend_from_slice(octets)?;
    }
    Ok(all)
}

// Writes the part of frame `n` into its packet, and before the packet's first frame its ordering information.
fn write_part<const Y: usize>(
    checked: &Checked,
    f: usize,
    frame: &Frame<Y>,
    n: u64,
    rd: Rd,
    packet: &mut [u8],
) -> Rd
    requires flow { f < length checked.now.flows }
    requires room { HoldsAt (λ flow. 22 + payload_octets checked.now flow ≤ length packet.old) checked.now.flows f }
    requires word { word_size checked.now.option ≡ Y }
    requires comma { checked.now.mode ≡ PlanMode.Tunnel → n % 256 ≡ 0 → slice_get frame.now 0 ≡ Some 188 }
    ensures part { HoldsAt (λ flow. WritesPart checked.now flow n rd frame.now packet.old packet.new) checked.now.flows f }
    ensures disparity { result ≡ disparity_after_frame checked.now.mode n rd frame.now }
{
    let flow = checked.plan().flows.at(f);
    number_packet(packet, flow, n);
    let size = checked.frame_octets(f);
    let from = HEADER + (n % u64::from(flow.frames)) as usize * size;
    map_frame(checked, f, frame, n, rd, &mut packet[from..from + size])
}

// Writes the ordering information of the packet that begins with frame `n`, if there is one.
fn number_packet(packet: &mut [u8], flow: &Flow, n: u64)
    requires room { 22 ≤ length packet.old }
    requires frames { 1 ≤ flow.now.frames }
    requires numbers { HasSequenceNumbers flow.now }
    ensures front { front_of packet.new ≡ front_of packet.old }
    ensures order { order_of packet.new ≡ (if n % flow.now.frames == 0 then four_octets (sequence_of flow.now (n / flow.now.frames)) else order_of packet.old) }
    ensures rest { drop 22 packet.new ≡ drop 22 packet.old }
{
    let frames = u64::from(flow.frames);
    if n % frames == 0 {
        let order = sequence(flow, n / frames);
        packet[ORDER..HEADER].copy_from_slice(&order.to_be_bytes());
    }
}

// The sequence number of packet `number` of a flow.
fn sequence(flow: &Flow, number: u64) -> u32
    requires { HasSequenceNumbers flow.now }
    ensures { result ≡ sequence_of flow.now number }
{
    let (p, q) = (u64::from(flow.p), u64::from(flow.q));
    (number / p % q << 16) as u32 + (number % p) as u32
}
