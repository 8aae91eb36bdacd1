//! The result of a call.

use crate::fault::RowFault;
use crate::row::have;
use crate::text_writer::TextWriter;
use std::alloc::{AllocError, Global};
use std::fmt::{Debug, Display};

/// The result of a call as text, in one or two ways.
#[derive(Drop)]
pub(crate) struct CallResult {
    /// In full, or a fault by its name.
    pub(crate) text: String,
    /// In brief, or a fault in words.
    pub(crate) other: Option<String>,
}

impl CallResult {
    /// Text.
    pub(crate) fn text(text: String) -> CallResult {
        CallResult { text, other: None }
    }

    /// Text that was made, if it was.
    pub(crate) fn of(made: Result<String, RowFault>) -> Result<CallResult, RowFault> {
        match made {
            Ok(text) => Ok(CallResult::text(text)),
            Err(fault) => Err(fault),
        }
    }

    /// Text that was made in two ways, if it was.
    pub(crate) fn of_both(
        made: Result<String, RowFault>,
        other: Result<String, RowFault>,
    ) -> Result<CallResult, RowFault> {
        match made {
            Ok(text) => match other {
                Ok(other) => Ok(CallResult {
                    text,
                    other: Some(other),
                }),
                Err(fault) => Err(fault),
            },
            Err(fault) => Err(fault),
        }
    }

    /// Bytes by their hexadecimal digits.
    pub(crate) fn bytes(alloc: Global, bytes: &[u8]) -> Result<CallResult, RowFault> {
        CallResult::of(have(hex::encode(alloc, bytes)))
    }

    /// A word.
    pub(crate) fn word(alloc: Global, word: &str) -> Result<CallResult, RowFault> {
        CallResult::of(have(String::from_str(alloc, word)))
    }

    /// A fault by its name.
    pub(crate) fn name<E: Debug>(alloc: Global, fault: &E) -> Result<CallResult, RowFault> {
        CallResult::of(name_of(alloc, format!(in alloc; "{fault:?}")))
    }

    /// A fault by its name, and in words.
    pub(crate) fn fault<E: Debug + Display>(
        alloc: Global,
        fault: &E,
    ) -> Result<CallResult, RowFault> {
        let name = name_of(alloc, format!(in alloc; "{fault:?}"));
        CallResult::of_both(name, have(format!(in alloc; "{fault}")))
    }

    /// Whether this is what was expected.
    pub(crate) fn is(&self, wanted: &str) -> bool {
        if self.text.as_str() == wanted {
            return true;
        }
        match &self.other {
            Some(other) => other.as_str() == wanted,
            None => false,
        }
    }
}

/// Whether two texts were made and are equal.
pub(crate) fn are_same(one: &Result<String, RowFault>, other: &Result<String, RowFault>) -> bool {
    match (one, other) {
        (Ok(one), Ok(other)) => one.as_str() == other.as_str(),
        _ => false,
    }
}

/// A name without brackets: what they hold follows after a space.
fn without_brackets(alloc: Global, name: &str) -> Result<String, RowFault> {
    let mut text = TextWriter::new(alloc);
    for c in name.chars() {
        match c {
            '(' => text.add_char(' '),
            ')' => {}
            _ => text.add_char(c),
        }
    }
    text.finish()
}

/// A value's name, if it was made, without brackets: what it holds follows after a space.
pub(crate) fn name_of(alloc: Global, made: Result<String, AllocError>) -> Result<String, RowFault> {
    match made {
        Ok(name) => without_brackets(alloc, name.as_str()),
        Err(_) => Err(RowFault::OutOfMemory),
    }
}
