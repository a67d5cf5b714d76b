//! Plans by their files: whether a plan meets the rules, and what is printed of it.
#![tactic(auto)]

mod answers;
mod check;
mod growing_sink;
mod judgement;
mod laws;
mod octets;
mod plan_file;

pub use check::check_plan;
pub use judgement::on_plan;
pub use laws::plans_are_checked;
pub use octets::{Answer, check_octets};
