//! A file of rows, and what is counted of it.

use crate::bytes::bytes_of;
use crate::call_result::CallResult;
use crate::calls::call;
use crate::entries::{Entry, entries_of};
use crate::expected::expected_of;
use crate::fault::RowFault;
use crate::names::{Names, copy_of, is_name};
use crate::row::{Parts, Row, only_word, parts_of};
use crate::text_writer::TextWriter;
use crate::token::{Token, tokens_of};
use std::alloc::Global;
use std::cell::Cell;
use std::{fs, io};

/// How many rows of a kind there are.
#[derive(Drop)]
struct KindCount {
    kind: String,
    rows: usize,
}

/// Counts one more of a kind.
fn count(alloc: Global, counts: &mut Vec<KindCount>, kind: &str) -> Result<(), RowFault> {
    for count in counts.iter_mut() {
        if count.kind.as_str() == kind {
            count.rows = count.rows.saturating_add(1);
            return Ok(());
        }
    }
    let kind = copy_of(alloc, kind)?;
    counts.push(KindCount { kind, rows: 1 })?;
    Ok(())
}

/// Makes the call of a row. A fault that is found of its fields comes before what the call returns.
fn result_of(row: &Row) -> Result<CallResult, RowFault> {
    let found = call(row);
    match row.take_fault() {
        Some(fault) => Err(fault),
        None => found,
    }
}

/// Compares the result of a row with the one that is expected.
fn compare(wanted: String, found: CallResult) -> Result<(), RowFault> {
    if found.is(wanted.as_str()) {
        Ok(())
    } else {
        let CallResult { text, .. } = found;
        Err(RowFault::Wrong(wanted, text))
    }
}

/// Makes the call of a row, and compares its result.
fn check_row<'a>(alloc: Global, names: &'a Names, parts: &'a Parts) -> Result<(), RowFault> {
    let wanted = expected_of(alloc, names, parts.expected.as_slice())?;
    let row = Row {
        alloc,
        names,
        fields: parts.fields.as_slice(),
        fault: Cell::new(None),
    };
    let found = result_of(&row);
    drop(row);
    match found {
        Ok(found) => compare(wanted, found),
        Err(fault) => Err(fault),
    }
}

/// The name that an entry defines.
fn defined(parts: &Parts) -> Option<&str> {
    match parts.fields.as_slice() {
        [field] => match only_word(field.as_slice()) {
            Some(word) if is_name(word) => Some(word),
            _ => None,
        },
        _ => None,
    }
}

/// What was found in a file.
#[derive(Drop)]
pub(crate) struct Found {
    names: usize,
    counts: Vec<KindCount>,
}

impl Found {
    /// Nothing yet.
    pub(crate) fn new(alloc: Global) -> Found {
        Found {
            names: 0,
            counts: Vec::new(alloc),
        }
    }

    /// How many rows there are.
    fn rows(&self) -> usize {
        let mut rows = 0usize;
        for count in self.counts.iter() {
            rows = rows.saturating_add(count.rows);
        }
        rows
    }

    /// Reads a name and its bytes.
    fn take_name(
        &mut self,
        alloc: Global,
        names: &mut Names,
        name: &str,
        expected: &[Token],
    ) -> Result<(), RowFault> {
        let bytes = bytes_of(alloc, names, expected)?;
        self.names = self.names.saturating_add(1);
        names.define(copy_of(alloc, name)?, bytes)
    }

    /// Reads a row.
    fn take_row(&mut self, alloc: Global, names: &Names, parts: &Parts) -> Result<(), RowFault> {
        let kind = parts
            .fields
            .first()
            .and_then(|field| only_word(field.as_slice()));
        count(alloc, &mut self.counts, kind.unwrap_or(""))?;
        check_row(alloc, names, parts)
    }

    /// Reads a name or a row.
    fn take(&mut self, alloc: Global, names: &mut Names, entry: &Entry) -> Result<(), RowFault> {
        let parts = parts_of(alloc, tokens_of(alloc, entry.text.as_str())?)?;
        match defined(&parts) {
            Some(name) => self.take_name(alloc, names, name, parts.expected.as_slice()),
            None => self.take_row(alloc, names, &parts),
        }
    }

    /// What is in the file, in words.
    fn text(&self, alloc: Global) -> Result<String, RowFault> {
        let rows = self.rows();
        if self.names == 0 && rows == 0 {
            return Err(RowFault::Empty);
        }
        let mut text = TextWriter::new(alloc);
        text.add_made(format!(in alloc; "{} names, {rows} rows", self.names));
        for count in self.counts.iter() {
            text.add_made(format!(in alloc; ", {} {}", count.kind, count.rows));
        }
        text.finish()
    }
}

/// Reads the entries of a file, prints each that is wrong, and returns how many are.
fn take_all(
    rt: &HostRuntime,
    names: &mut Names,
    found: &mut Found,
    name: &str,
    entries: &[Entry],
) -> io::Result<usize> {
    let mut wrong = 0usize;
    for entry in entries {
        if let Err(fault) = found.take(rt.alloc(), names, entry) {
            wrong = wrong.saturating_add(1);
            println!(rt; "{name}:{}: {fault}", entry.line)?;
        }
    }
    Ok(wrong)
}

/// Reads a file's text, prints what is wrong and what there is, and returns how much is wrong.
fn take_text(rt: &HostRuntime, names: &mut Names, name: &str, text: &str) -> io::Result<usize> {
    let alloc = rt.alloc();
    let entries = entries_of(alloc, text)?;
    let mut found = Found::new(alloc);
    let wrong = take_all(rt, names, &mut found, name, entries.as_slice())?;
    match found.text(alloc) {
        Ok(text) => {
            println!(rt; "{name}: {text}")?;
            Ok(wrong)
        }
        Err(fault) => {
            println!(rt; "{name}:1: {fault}")?;
            Ok(wrong.saturating_add(1))
        }
    }
}

/// Reads a file, prints what is wrong and what there is, and returns how much is wrong.
pub(crate) fn take_file(rt: &HostRuntime, names: &mut Names, name: &str) -> io::Result<usize> {
    match fs::read_to_string(rt, name) {
        Ok(text) => take_text(rt, names, name, text.as_str()),
        Err(_) => {
            println!(rt; "{name}:1: {}", RowFault::NotRead)?;
            Ok(1)
        }
    }
}
