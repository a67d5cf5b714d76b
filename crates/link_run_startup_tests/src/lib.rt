//! Start-ups over a file and a sink in memory, apart from `link_run_startup`, which is proved once more with tests of its own.
#![tactic(auto)]

#[cfg(test)]
mod tests;
