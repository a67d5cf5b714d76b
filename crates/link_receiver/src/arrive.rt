// What is said of octets that arrive.
use roe_header::NotRoe;
use thiserror::Error;

/// Why octets are of no flow of the plan: the first of these that applies.
#[derive(Clone, Copy, Debug, PartialEq, Eq, Error)]
pub enum Foreign {
    /// They are no packet.
    #[error("{0}")]
    NotRoe(NotRoe),
    /// The subtype is not that of the plan's mode.
    #[error("the subtype is {got}")]
    Sub { got: u8 },
    /// No flow of the plan has the flow id.
    #[error("the flow id is {id}")]
    Flow { id: u8 },
}

/// What was done with octets that arrived. The first that applies is answered, in the order `Foreign`, `Size`, `Outside`,
/// `Repeat`, `Taken`, and only `Taken` changes what is received. `flow` is the place of the flow in the plan.
#[derive(Clone, Copy, Debug, PartialEq, Eq)]
pub enum Arrive {
    /// They are the first record of packet `number` of the flow.
    Taken { flow: u32, number: u64 },
    /// That packet was received before.
    Repeat { flow: u32, number: u64 },
    /// No packet of the flow with this sequence number may arrive at this tick.
    Outside { flow: u32, seq: u32 },
    /// The payload has another length, in octets, than the packets of the flow.
    Size { flow: u32, length: usize },
    /// They are of no flow.
    Foreign(Foreign),
}
