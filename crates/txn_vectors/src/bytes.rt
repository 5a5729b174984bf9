//! Bytes as a line has them.
use crate::text::{hex_byte, number};
use crate::wrong::Wrong;
use std::alloc::{AllocError, Global};

/// The bytes of these words: `61` is a byte, `61*3` three of them, `'orders` the bytes of a text, `9/2` and `9/8` a number in
/// two and in eight bytes, and `0..3/8` the numbers 0, 1 and 2 in eight bytes each.
pub fn bytes_of(alloc: Global, words: &str) -> Result<Vec<u8>, Wrong> {
    let mut out = Vec::new(alloc);
    for word in words.split_whitespace() {
        if let Some(text) = word.strip_prefix("'") {
            out.extend_from_slice(text.as_bytes())?;
        } else if let Some(numbers) = word.strip_suffix("/8") {
            put_numbers(numbers, &mut out)?;
        } else if let Some(count) = word.strip_suffix("/2") {
            put_count(count, &mut out)?;
        } else {
            put_repeated(word, &mut out)?;
        }
    }
    Ok(out)
}

fn put_repeated(word: &str, out: &mut Vec<u8>) -> Result<(), Wrong> {
    let (byte, count) = word.split_once('*').unwrap_or((word, "1"));
    let byte = hex_byte(byte)?;
    for _ in 0..number(count)? {
        out.push(byte)?;
    }
    Ok(())
}

fn put_count(word: &str, out: &mut Vec<u8>) -> Result<(), Wrong> {
    let Ok(count) = u16::try_from(number(word)?) else {
        return Err(Wrong::Line("two bytes hold less"));
    };
    out.extend_from_slice(&count.to_be_bytes())?;
    Ok(())
}

fn put_numbers(word: &str, out: &mut Vec<u8>) -> Result<(), Wrong> {
    match word.split_once("..") {
        Some((first, end)) => {
            for n in number(first)?..number(end)? {
                out.extend_from_slice(&n.to_be_bytes())?;
            }
        }
        None => out.extend_from_slice(&number(word)?.to_be_bytes())?,
    }
    Ok(())
}

/// The words of these bytes: three and more of a kind are told as a count.
pub fn hex_of(alloc: Global, bytes: &[u8]) -> Result<String, AllocError> {
    let mut text = String::new(alloc);
    let mut last = None;
    let mut count = 0u64;
    for byte in bytes {
        if last == Some(*byte) {
            count = count.saturating_add(1);
        } else {
            put_run(alloc, last, count, &mut text)?;
            last = Some(*byte);
            count = 1;
        }
    }
    put_run(alloc, last, count, &mut text)?;
    Ok(text)
}

fn put_run(
    alloc: Global,
    byte: Option<u8>,
    count: u64,
    text: &mut String,
) -> Result<(), AllocError> {
    let Some(byte) = byte else {
        return Ok(());
    };
    let space = if text.is_empty() { "" } else { " " };
    let told = match count {
        1 => format!(in alloc; "{space}{byte:02x}")?,
        2 => format!(in alloc; "{space}{byte:02x} {byte:02x}")?,
        _ => format!(in alloc; "{space}{byte:02x}*{count}")?,
    };
    text.push_str(told.as_str())
}
