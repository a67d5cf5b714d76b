//! Captures played by public calls, apart from `link_receiver`, which is proved once more with tests of its own.
#![tactic(auto)]

#[cfg(test)]
mod tests;
