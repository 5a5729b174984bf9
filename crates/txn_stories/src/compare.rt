//! The first difference between what a story says and what came.
ghost use Rattle.std.specs.Prelude.{◌≡◌, OnOk};

use std::alloc::{AllocError, Global};
use txn_story::{Wrong, hex_of, lines_in, told};

/// The same text came.
pub fn same_text(alloc: Global, what: &str, want: &str, came: &str) -> Result<(), Wrong>
    ensures { OnOk result (want.now ≡ came.now) }
{
    if want == came {
        return Ok(());
    }
    Err(Wrong::Came {
        what: String::from_str(alloc, what)?,
        want: String::from_str(alloc, want)?,
        came: String::from_str(alloc, came)?,
    })
}

/// The same bytes came.
pub fn same_bytes(alloc: Global, what: &str, want: &[u8], came: &[u8]) -> Result<(), Wrong>
    ensures { OnOk result (want.now ≡ came.now) }
{
    if want == came {
        return Ok(());
    }
    Err(Wrong::Came {
        what: String::from_str(alloc, what)?,
        want: hex_of(alloc, want)?,
        came: hex_of(alloc, came)?,
    })
}

/// The same lines came.
pub fn same_lines(alloc: Global, want: &[u8], came: &[u8]) -> Result<(), Wrong>
    ensures { OnOk result (want.now ≡ came.now) }
{
    if want == came {
        return Ok(());
    }
    let wants = lines_in(alloc, want)?;
    let cames = lines_in(alloc, came)?;
    Err(first_difference(alloc, &wants, &cames)?)
}

/// The first line that is another.
fn first_difference(alloc: Global, wants: &[&[u8]], cames: &[&[u8]]) -> Result<Wrong, AllocError> {
    for i in 0..wants.len().max(cames.len()) {
        let want = wants.get(i).copied().unwrap_or(&[]);
        let came = cames.get(i).copied().unwrap_or(&[]);
        if want != came {
            return other_line(alloc, i.saturating_add(1), want, came);
        }
    }
    Ok(Wrong::Line("the replies differ"))
}

/// Another line came: what stands around the first byte that is another.
fn other_line(alloc: Global, number: usize, want: &[u8], came: &[u8]) -> Result<Wrong, AllocError> {
    let at = first_other(want, came);
    Ok(Wrong::Came {
        what: format!(in alloc; "reply {number}, byte {at}")?,
        want: around(alloc, want, at)?,
        came: around(alloc, came, at)?,
    })
}

/// The index of the first item that is another, or the length of the shorter list.
pub fn first_other<T: PartialEq>(these: &[T], those: &[T]) -> usize {
    let mut at = 0usize;
    for (this, that) in these.iter().zip(those) {
        if *this != *that {
            break;
        }
        at = at.saturating_add(1);
    }
    at
}

/// Of these bytes, those around one of them, as a text that stands for them.
fn around(alloc: Global, bytes: &[u8], at: usize) -> Result<String, AllocError> {
    let start = at.saturating_sub(100).min(bytes.len());
    let end = at.saturating_add(100).min(bytes.len());
    let before = if start == 0 { "" } else { ".." };
    let behind = if end == bytes.len() { "" } else { ".." };
    let text = told(alloc, bytes.get(start..end).unwrap_or(&[]))?;
    format!(in alloc; "{before}{text}{behind}")
}
