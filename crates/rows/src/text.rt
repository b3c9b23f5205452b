//! The parts of a line.

use anyhow::{Context, Result};
use std::alloc::{AllocError, Global};

/// What stands before the first space, and what stands behind it.
pub fn split(text: &str) -> (&str, &str) {
    text.split_once(' ').unwrap_or((text, ""))
}

/// Appends a line.
pub fn add_line(bytes: &mut Vec<u8>, line: &str) -> Result<(), AllocError> {
    bytes.extend_from_slice(line.as_bytes())?;
    bytes.push(b'\n')?;
    Ok(())
}

/// Of `FROM END TEXT` the text for each number from one to below the other, which stands where the text has `#`, with this end behind each.
pub fn each(alloc: Global, parts: &str, behind: &str) -> Result<String> {
    let (from, parts) = split(parts);
    let (end, text) = split(parts);
    let (before, after) = text.split_once('#').context("a text without a #")?;
    let mut all = String::new(alloc);
    for number in from.parse::<u64>()?..end.parse::<u64>()? {
        write!(all, "{before}{number}{after}{behind}")?;
    }
    Ok(all)
}

/// Of `COUNT TEXT` the text so many times.
pub fn times(alloc: Global, parts: &str) -> Result<String> {
    let (count, text) = split(parts);
    let mut all = String::new(alloc);
    for _ in 0..count.parse::<u64>()? {
        all.push_str(text)?;
    }
    Ok(all)
}
