//! Files of samples sent over files and a sink in memory, apart from `link_run_send`, which is proved once more with tests of its
//! own.
#![tactic(auto)]

#[cfg(test)]
mod tests;
