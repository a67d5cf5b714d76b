//! A run that is made from a number: its plan and samples are drawn, its packets are sent, lost, repeated and shuffled, and a
//! session plays them.
//!
//! A draw sets x to (1,103,515,245·x + 12,345) mod 2^31 and gives x div 65,536. At first x is the number. One draw gives the line
//! bit rate option. The samples of 256 ticks follow by tick, carrier and number, I before Q, then the fates of packets 0 to 64:
//! one in sixteen is lost, the others arrive within their windows, and one in sixteen arrives twice.
#![tactic(auto)]

mod call;
mod draws;
mod fates;
mod packet;
mod playing;
mod run_plan;
mod sending;
mod summary;
mod tally;

pub use call::drill_number;
pub use summary::{Summary, drill};
