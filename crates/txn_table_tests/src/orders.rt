//! Every order of four deadlines, with each that may be like another.
ghost use Rattle.std.specs.Prelude.{Contains};

use crate::digest::{Counts, mixed};
use std::alloc::{AllocError, Global};
use txn_timeouts::Deadlines;

/// In which order they are dropped.
#[derive(Clone, Copy)]
pub enum Way {
    AsDue,
    AsAdded,
}

/// A deadline of this number.
fn deadline_of(choice: u64) -> u64 {
    match choice {
        0 => 0,
        1 => 7,
        2 => 8,
        _ => u64::MAX,
    }
}

/// The number at a place of a list of four numbers below four.
fn number_at(list: u64, place: u64) -> u64 {
    match place {
        0 => list % 4,
        1 => list / 4 % 4,
        2 => list / 16 % 4,
        _ => list / 64 % 4,
    }
}

/// All four numbers stand in the list.
fn is_order(list: u64) -> bool {
    (0..4_u64).all(|number| {
        number_at(list, 0) == number
            || number_at(list, 1) == number
            || number_at(list, 2) == number
            || number_at(list, 3) == number
    })
}

/// Tries all orders of all four deadlines.
pub fn count_orders(alloc: Global, way: Way) -> Result<Counts, AllocError> {
    let mut counts = Counts {
        tried: 0,
        taken: 0,
        answers: 0,
    };
    for deadlines in 0..256_u64 {
        for order in 0..256_u64 {
            if is_order(order) {
                try_order(alloc, deadlines, order, way, &mut counts)?;
            }
        }
    }
    Ok(counts)
}

/// Adds the deadlines in this order, the odd ones in room that was reserved, and drops them.
fn try_order(
    alloc: Global,
    deadlines: u64,
    order: u64,
    way: Way,
    counts: &mut Counts,
) -> Result<(), AllocError> {
    let mut kept = Deadlines::new(alloc);
    let mut answers = 0;
    for place in 0..4_u64 {
        let number = number_at(order, place);
        let deadline = deadline_of(number_at(deadlines, number));
        if !kept.contains(deadline, number) {
            add(&mut kept, deadline, number)?;
        }
        answers = ask(&kept, answers);
    }
    for place in 0..4_u64 {
        let number = match way {
            Way::AsDue => kept.first_due(u64::MAX).unwrap_or(4),
            Way::AsAdded => number_at(order, place),
        };
        let deadline = deadline_of(number_at(deadlines, number));
        if kept.contains(deadline, number) {
            kept.drop_txn(deadline, number);
            counts.taken = counts.taken.saturating_add(1);
        }
        answers = ask(&kept, answers);
    }
    counts.tried = counts.tried.saturating_add(1);
    counts.answers = mixed(counts.answers, answers);
    Ok(())
}

fn add(kept: &mut Deadlines, deadline: u64, number: u64) -> Result<(), AllocError>
    requires { Contains kept.old.items (deadline, number) → ⊥ }
{
    if number % 2 == 0 {
        return kept.add(deadline, number);
    }
    kept.reserve(1)?;
    kept.put(deadline, number);
    Ok(())
}

/// What is due at five moments.
fn ask(kept: &Deadlines, before: u64) -> u64 {
    let mut answers = mixed(before, kept.len() as u64);
    for now in [0, 6, 7, 8, u64::MAX] {
        answers = mixed(answers, kept.due_count(now) as u64);
        answers = mixed(
            answers,
            match kept.first_due(now) {
                Some(number) => number.wrapping_add(1),
                None => 0,
            },
        );
    }
    answers
}
