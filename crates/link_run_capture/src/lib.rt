//! Captures as text, read and written: a header with the length of a run, and the octets that arrived at its ticks. The header of
//! a file of samples says the same of a run.
#![tactic(auto)]

mod capture;
mod header;
mod written;

pub use capture::{Arrival, MOST_OCTETS, read_record};
pub use header::{Header, RunFile, Version, read_header, read_run_header};
pub use written::{put_header, put_record};
