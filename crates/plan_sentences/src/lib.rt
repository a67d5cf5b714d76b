//! What people are told of a plan that is refused: one sentence, of the figures of the rule that fails, or of what stands
//! in the text and what is asked for. No contract speaks of these sentences, so nothing stands on them but what prints them.
#![tactic(auto)]

mod carriers_in_words;
mod explain;
mod faults_in_words;
mod flows_in_words;
mod rules_in_words;
mod values_in_words;

pub use explain::explain_plan;
pub use faults_in_words::fault_in_words;
pub use rules_in_words::rule_in_words;
