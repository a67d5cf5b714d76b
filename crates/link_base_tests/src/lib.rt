//! Shelves and sinks tried by public calls, apart from `link_base`, which is proved once more with tests of its own.
#![tactic(auto)]

#[cfg(test)]
mod tests;
