//! Plans tried by public calls: read from text, judged by the rules, answered from files, and told of in words. A crate is
//! proved once more with its tests, so these stand apart from the crates that they try.
#![tactic(auto)]

#[cfg(test)]
mod answers;
#[cfg(test)]
mod flows;
#[cfg(test)]
mod numbers;
#[cfg(test)]
mod plans;
#[cfg(test)]
mod rules;
#[cfg(test)]
mod sentences;
#[cfg(test)]
mod texts;
