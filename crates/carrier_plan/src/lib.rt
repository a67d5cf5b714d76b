//! Plans of a link as plain data, and as TOML text.
#![tactic(auto)]

mod carrier_list;
mod fault;
mod flow_list;
mod number_list;
mod piece_list;
mod plan;
mod printed;
mod printing;
mod reading;
mod version;

pub use carrier_list::CarrierList;
pub use fault::{Field, Part, PlanText, ReadError, Spot};
pub use flow_list::FlowList;
pub use number_list::NumberList;
pub use piece_list::PieceList;
pub use plan::{Carrier, Flow, Method, Mode, Piece, Plan};
pub use printing::print;
pub use reading::read;
