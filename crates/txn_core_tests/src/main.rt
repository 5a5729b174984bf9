//! What the core does, beside a plain reading of the rules: one worked case, every short list of steps, and random walks.
#![tactic(auto)]

mod every;
mod random;
mod reading;
mod rules;
mod skeletons;
mod start;
mod walk;
mod worked;

use crate::every::{Front, count_lists};
use crate::skeletons::skeletons_of_each_entry;
use crate::walk::walk;
use crate::worked::{
    core_skips_marker_of_a_decision_in_flight, core_skips_marker_without_decision,
};
use std::process::ExitCode;

fn main(rt: HostRuntime) -> ExitCode {
    match report(rt) {
        Ok(()) => ExitCode::SUCCESS,
        Err(_) => ExitCode::FAILURE,
    }
}

/// Prints what agreed. What differs, or finds no memory, has a line of its own.
fn report(rt: HostRuntime) -> Result<(), std::io::Error> {
    match core_skips_marker_without_decision(rt.alloc()) {
        Ok(lengths) => println!(rt;
            "core_skips_marker_without_decision: the log has {} entries, part 1 has {} and {} in flight",
            lengths.log, lengths.part, lengths.flight
        )?,
        Err(_) => println!(rt; "core_skips_marker_without_decision: no memory")?,
    }
    match core_skips_marker_of_a_decision_in_flight(rt.alloc()) {
        Ok(lengths) => println!(rt;
            "core_skips_marker_of_a_decision_in_flight: the log has {} entries, part 1 has {} and {} in flight",
            lengths.log, lengths.part, lengths.flight
        )?,
        Err(_) => println!(rt; "core_skips_marker_of_a_decision_in_flight: no memory")?,
    }
    match skeletons_of_each_entry(rt.alloc()) {
        Ok(true) => println!(rt; "skeletons_of_each_entry: as they should be")?,
        Ok(false) => println!(rt; "skeletons_of_each_entry: otherwise")?,
        Err(_) => println!(rt; "skeletons_of_each_entry: no memory")?,
    }
    for (front, name) in [
        (Front::Nothing, "4 steps after nothing"),
        (Front::Registered, "4 steps after a message"),
        (Front::Decided, "4 steps after a decision"),
        (Front::Marked, "3 steps after a marker at one of two parts"),
    ] {
        match count_lists(rt.alloc(), front) {
            Ok(counts) => println!(rt;
                "lists of up to {name}: {} tried, {} steps made, {} differ",
                counts.lists, counts.made, counts.different
            )?,
            Err(_) => println!(rt; "lists of up to {name}: no memory")?,
        }
    }
    for seed in 1..9_u64 {
        match walk(rt.alloc(), seed) {
            Ok(counts) => println!(rt;
                "walk of 1000 steps with the seed {seed}: {} steps made, {} entries, {} tellings, {} differ",
                counts.made, counts.entries, counts.told, counts.different
            )?,
            Err(_) => println!(rt; "walk with the seed {seed}: no memory")?,
        }
    }
    Ok(())
}
