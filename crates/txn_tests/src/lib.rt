//! Tests of calls: of the parts under a run, each over a disk in memory, and of that disk.
#![tactic(auto)]

#[cfg(test)]
mod tests;
