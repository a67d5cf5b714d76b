//! Drills whose numbers another program gave, apart from `link_drill`, which is proved once more with tests of its own.
#![tactic(auto)]

#[cfg(test)]
mod tests;
