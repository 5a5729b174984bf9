//! How a story is told for one of its cases.
use crate::teller::Teller;
use std::alloc::{AllocError, Global};
use txn_story::{Story, Wrong, filled, name_of};

/// How a story was told for one of its cases.
#[derive(Drop)]
pub struct Told {
    /// Its first line.
    pub head: String,
    /// The number of the last line that was told.
    pub at: usize,
    pub teller: Teller,
    pub end: Result<(), Wrong>,
}

impl Told {
    /// The story's name.
    pub fn name(&self) -> &str {
        name_of(self.head.as_str())
    }
}

/// Tells a story for one of its cases.
pub fn tell(alloc: Global, story: &Story, i: usize, is_shown: bool) -> Result<Told, AllocError> {
    let case = story.case(i);
    let head = filled(alloc, story.head.as_str(), case)?;
    let mut teller = Teller::new(alloc, is_shown)?;
    let mut at = story.first;
    let end = tell_lines(alloc, story, case, &mut at, &mut teller);
    Ok(Told {
        head,
        at,
        teller,
        end,
    })
}

/// Tells its lines for a case, and counts them.
fn tell_lines(
    alloc: Global,
    story: &Story,
    case: &str,
    at: &mut usize,
    teller: &mut Teller,
) -> Result<(), Wrong> {
    for line in &story.lines {
        *at = at.saturating_add(1);
        let text = filled(alloc, line.as_str(), case)?;
        teller.tell(text.as_str())?;
    }
    teller.end()
}
