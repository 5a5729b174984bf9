//! The words of a line, and the bytes that a text stands for.
use crate::wrong::Wrong;
use std::alloc::{AllocError, Global};

/// The words of a line, with spaces between them.
pub fn words_of(alloc: Global, line: &str) -> Result<Vec<String>, Wrong> {
    let mut words = Vec::new(alloc);
    for word in line.split_whitespace() {
        words.push(String::from_str(alloc, word)?)?;
    }
    Ok(words)
}

/// The first word of a line, and the rest behind the space.
pub fn first_word(line: &str) -> (&str, &str) {
    match line.split_once(' ') {
        Some(halves) => halves,
        None => (line, ""),
    }
}

/// A number.
pub fn number(word: &str) -> Result<u64, Wrong> {
    word.parse::<u64>()
        .map_err(|_| Wrong::Line("a number is wanted"))
}

/// A byte, as two digits.
pub fn hex_byte(word: &str) -> Result<u8, Wrong> {
    u8::from_str_radix(word, 16).map_err(|_| Wrong::Line("a byte in two digits is wanted"))
}

/// The bytes that a text stands for. `${m*3}` is mmm, and `${c3}` this byte.
pub fn text_bytes(alloc: Global, text: &str) -> Result<Vec<u8>, Wrong> {
    let mut out = Vec::new(alloc);
    for (i, part) in text.split("${").enumerate() {
        match part.split_once('}') {
            Some((inside, after)) if i > 0 => {
                put_inside(inside, &mut out)?;
                out.extend_from_slice(after.as_bytes())?;
            }
            _ => out.extend_from_slice(part.as_bytes())?,
        }
    }
    Ok(out)
}

fn put_inside(inside: &str, out: &mut Vec<u8>) -> Result<(), Wrong> {
    match inside.split_once('*') {
        Some((text, count)) => put_times(text.as_bytes(), number(count)?, out)?,
        None => out.push(hex_byte(inside)?)?,
    }
    Ok(())
}

/// Puts bytes so many times.
fn put_times(bytes: &[u8], count: u64, out: &mut Vec<u8>) -> Result<(), AllocError> {
    for _ in 0..count {
        out.extend_from_slice(bytes)?;
    }
    Ok(())
}

/// A text in which each newline is told as a byte.
pub fn one_line(alloc: Global, text: &str) -> Result<String, AllocError> {
    let mut told = String::new(alloc);
    for c in text.chars() {
        if c == '\n' {
            told.push_str("${0a}")?;
        } else {
            told.push(c)?;
        }
    }
    Ok(told)
}
