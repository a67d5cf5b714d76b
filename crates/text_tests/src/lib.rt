//! Lines of text tried by public calls, and what stands in them: captures, samples that leave, management channels. A crate is
//! proved once more with its tests, so these stand apart from the crates that they try.
#![tactic(auto)]

#[cfg(test)]
mod captures;
#[cfg(test)]
mod entries;
#[cfg(test)]
mod lines;
#[cfg(test)]
mod management;
