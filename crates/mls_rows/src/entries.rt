//! The entries of a file: each a line, with the lines after it that begin with white space.

use std::alloc::{AllocError, Global};

/// An entry, by the number of its first line.
#[derive(Drop)]
pub(crate) struct Entry {
    pub(crate) line: usize,
    pub(crate) text: String,
}

/// Whether a line is a comment or blank.
fn is_skipped(line: &str) -> bool {
    let text = line.trim();
    text.is_empty() || text.starts_with('#')
}

/// Goes on with the entry before, or begins another one.
fn add_line(
    alloc: Global,
    entries: &mut Vec<Entry>,
    line: usize,
    text: &str,
) -> Result<(), AllocError> {
    if text.starts_with(' ') {
        if let Some(last) = entries.last_mut() {
            return last.text.push_str(text);
        }
    }
    let text = String::from_str(alloc, text)?;
    entries.push(Entry { line, text })?;
    Ok(())
}

/// The entries of a file's text, without comments and blank lines.
pub(crate) fn entries_of(alloc: Global, text: &str) -> Result<Vec<Entry>, AllocError> {
    let mut entries = Vec::new(alloc);
    let mut number = 0usize;
    for line in text.lines() {
        number = number.saturating_add(1);
        if !is_skipped(line) {
            add_line(alloc, &mut entries, number, line)?;
        }
    }
    Ok(entries)
}
