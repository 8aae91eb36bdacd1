//! The names of bytes.

use crate::fault::RowFault;
use std::alloc::Global;

/// A name and its bytes.
#[derive(Drop)]
struct Name {
    name: String,
    bytes: Vec<u8>,
}

/// The names that are defined.
#[derive(Drop)]
pub(crate) struct Names {
    all: Vec<Name>,
}

impl Names {
    /// None.
    pub(crate) fn new(alloc: Global) -> Names {
        Names {
            all: Vec::new(alloc),
        }
    }

    /// How many.
    pub(crate) fn len(&self) -> usize {
        self.all.len()
    }

    /// The bytes of a name.
    pub(crate) fn get(&self, name: &str) -> Option<&[u8]> {
        for entry in self.all.iter() {
            if entry.name.as_str() == name {
                return Some(entry.bytes.as_slice());
            }
        }
        None
    }

    /// Defines a name.
    pub(crate) fn define(&mut self, name: String, bytes: Vec<u8>) -> Result<(), RowFault> {
        if self.get(name.as_str()).is_some() {
            return Err(RowFault::DefinedTwice(name));
        }
        self.all.push(Name { name, bytes })?;
        Ok(())
    }

    /// Forgets all but the first ones, this many.
    pub(crate) fn keep_first(&mut self, count: usize) {
        self.all.truncate(count);
    }
}

/// Whether a word can be a name: it begins with a capital.
pub(crate) fn is_name(word: &str) -> bool {
    word.starts_with(|c: char| c.is_ascii_uppercase())
}

/// A copy of a word.
pub(crate) fn copy_of(alloc: Global, word: &str) -> Result<String, RowFault> {
    Ok(String::from_str(alloc, word)?)
}
