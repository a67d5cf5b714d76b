// Which flow octets are a packet of, and with what payload.
ghost use Rattle.std.specs.Prelude.{◌≡◌, ◌==◌, position, Ok, MatchResult};
ghost use Rattle.carrier_plan.specs.declared.plan.Flow.{Flow as OneFlow};
ghost use Rattle.plan_checker.specs.Packets.{subtype_of};
ghost use Rattle.roe_header.specs.Layout.{fields, parsed};
ghost use Rattle.link_receiver.specs.Answers.{IsOf, IsOfNone};

use crate::arrive::{Arrive, Foreign};
use carrier_plan::{Mode, Plan};
use plan_checker::Checked;
use roe_header::{Packet, parse};

/// A payload for a flow.
#[derive(Clone, Copy, Debug, PartialEq, Eq)]
pub struct Arrival<'a> {
    /// The place of the flow.
    pub flow: usize,
    pub seq: u32,
    pub payload: &'a [u8],
}

// The subtype of the packets of a mode.
fn subtype_of(mode: Mode) -> u8
    ensures { result ≡ subtype_of mode }
{
    match mode {
        Mode::Tunnel | Mode::Bytes => 2,
        Mode::Aware => 3,
    }
}

// The place of the first flow with this id.
fn flow_with_id(plan: &Plan, id: u8) -> Option<usize>
    ensures { result ≡ position (λ (f : OneFlow). f.id == id) plan.now.flows }
{
    plan.flows
        .as_slice()
        .iter()
        .position(|flow| flow.id == u32::from(id))
}

// The payload of a packet that fits a flow, or what is answered to it.
fn payload_of<'a>(checked: &Checked, packet: &Packet<'a>) -> Result<Arrival<'a>, Arrive>
    ensures { MatchResult result
        (λ arrival. IsOf checked.now (Ok (fields packet.now)) arrival.flow arrival.seq arrival.payload.now)
        (λ answer. IsOfNone checked.now (Ok (fields packet.now)) answer) }
{
    let plan = checked.plan();
    if packet.sub != subtype_of(plan.mode) {
        return Err(Arrive::Foreign(Foreign::Sub { got: packet.sub }));
    }
    let Some(flow) = flow_with_id(plan, packet.flow) else {
        return Err(Arrive::Foreign(Foreign::Flow { id: packet.flow }));
    };
    let octets = plan.flows.at(flow).frames as usize * checked.frame_octets(flow);
    if packet.payload.len() != octets {
        return Err(Arrive::Size {
            flow: flow as u32,
            length: packet.payload.len(),
        });
    }
    Ok(Arrival {
        flow,
        seq: packet.seq,
        payload: packet.payload,
    })
}

/// The payload that octets are for a flow, or what is answered to them.
pub fn arrival_of<'a>(checked: &Checked, octets: &'a [u8]) -> Result<Arrival<'a>, Arrive>
    ensures { MatchResult result
        (λ arrival. IsOf checked.now (parsed octets.now) arrival.flow arrival.seq arrival.payload.now)
        (λ answer. IsOfNone checked.now (parsed octets.now) answer) }
{
    match parse(octets) {
        Ok(packet) => payload_of(checked, &packet),
        Err(reason) => Err(Arrive::Foreign(Foreign::NotRoe(reason))),
    }
}
