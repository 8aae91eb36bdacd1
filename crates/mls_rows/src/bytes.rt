//! What bytes are written like: digits, names, texts, vectors and hashes.

use crate::fault::RowFault;
use crate::names::{Names, copy_of};
use crate::token::{Bracket, Token};
use hex::FromHexError;
use sha2::{Digest, Sha256, Sha384, Sha512};
use std::alloc::Global;
use std::mem;

/// A reader of words and marks as bytes.
#[derive(Drop)]
pub(crate) struct ByteReader<'a> {
    alloc: Global,
    names: &'a Names,
    /// The bytes in the innermost bracket.
    bytes: Vec<u8>,
    /// The brackets around, each with the bytes before it.
    open: Vec<(Bracket, Vec<u8>)>,
    /// The first fault.
    fault: Option<RowFault>,
}

impl<'a> ByteReader<'a> {
    /// Nothing yet.
    pub(crate) fn new(alloc: Global, names: &'a Names) -> ByteReader<'a> {
        ByteReader {
            alloc,
            names,
            bytes: Vec::new(alloc),
            open: Vec::new(alloc),
            fault: None,
        }
    }

    /// Whether no bracket is open.
    pub(crate) fn is_outside(&self) -> bool {
        self.open.is_empty()
    }

    /// Records a fault, unless there is one.
    fn record(&mut self, fault: RowFault) {
        if self.fault.is_none() {
            self.fault = Some(fault);
        }
    }

    /// Records a fault that has a word.
    fn record_word(&mut self, word: &str, is_name: bool) {
        match copy_of(self.alloc, word) {
            Ok(word) if is_name => self.record(RowFault::NotDefined(word)),
            Ok(word) => self.record(RowFault::NotBytes(word)),
            Err(fault) => self.record(fault),
        }
    }

    /// Opens a bracket.
    fn open(&mut self, bracket: Bracket) {
        let outer = mem::replace(&mut self.bytes, Vec::new(self.alloc));
        if self.open.push((bracket, outer)).is_err() {
            self.record(RowFault::OutOfMemory);
        }
    }

    /// Adds bytes.
    fn add(&mut self, bytes: &[u8]) {
        if self.bytes.extend_from_slice(bytes).is_err() {
            self.record(RowFault::OutOfMemory);
        }
    }

    /// Adds the text of the hexadecimal digits of bytes.
    fn add_digits(&mut self, bytes: &[u8]) {
        match hex::encode(self.alloc, bytes) {
            Ok(digits) => self.add(digits.as_str().as_bytes()),
            Err(_) => self.record(RowFault::OutOfMemory),
        }
    }

    /// Adds the length of a vector (RFC 9420, 2.1.2).
    fn add_length(&mut self, length: usize) {
        if length < 64 {
            self.add(&[length as u8]);
        } else if length < 16384 {
            self.add(&(length as u16 + 16384).to_be_bytes());
        } else if length < 1073741824 {
            self.add(&(length as u32 + 2147483648).to_be_bytes());
        } else {
            self.record(RowFault::TooLong);
        }
    }

    /// Adds a vector (RFC 9420, 2.1.2).
    fn add_vector(&mut self, body: &[u8]) {
        self.add_length(body.len());
        self.add(body);
    }

    /// Adds a body a number of times.
    fn add_times(&mut self, body: &[u8], count: usize) {
        for _ in 0..count {
            self.add(body);
        }
    }

    /// Adds what a bracket makes of its body.
    fn put(&mut self, bracket: Bracket, body: &[u8]) {
        match bracket {
            Bracket::Group => self.add(body),
            Bracket::Vector => self.add_vector(body),
            Bracket::Sha256 => self.add(&Sha256::digest(body)),
            Bracket::Sha384 => self.add(&Sha384::digest(body)),
            Bracket::Sha512 => self.add(&Sha512::digest(body)),
            Bracket::Digits => self.add_digits(body),
            Bracket::Times(count) => self.add_times(body, count),
        }
    }

    /// Closes a bracket.
    fn close(&mut self, is_vector: bool) {
        match self.open.pop() {
            Some((bracket, outer)) => {
                let body = mem::replace(&mut self.bytes, outer);
                if (bracket == Bracket::Vector) != is_vector {
                    self.record(RowFault::Brackets);
                }
                self.put(bracket, body.as_slice());
            }
            None => self.record(RowFault::Brackets),
        }
    }

    /// Adds the bytes of hexadecimal digits.
    fn take_digits(&mut self, word: &str) {
        match hex::decode(self.alloc, word) {
            Ok(bytes) => self.add(bytes.as_slice()),
            Err(FromHexError::OutOfMemory) => self.record(RowFault::OutOfMemory),
            Err(_) => self.record_word(word, false),
        }
    }

    /// Adds the bytes of a word.
    fn take_word(&mut self, word: &str) {
        match word.strip_prefix('$') {
            Some(name) => match self.names.get(name) {
                Some(bytes) => self.add(bytes),
                None => self.record_word(name, true),
            },
            None => self.take_digits(word),
        }
    }

    /// Goes on.
    pub(crate) fn take(&mut self, token: &Token) {
        match token {
            Token::Word(word) => self.take_word(word.as_str()),
            Token::Text(text) => self.add(text.as_str().as_bytes()),
            Token::Open(bracket) => self.open(*bracket),
            Token::CloseVector => self.close(true),
            Token::Close => self.close(false),
            Token::Bar | Token::Equals => self.record(RowFault::Brackets),
        }
    }

    /// The bytes until here; they begin again.
    pub(crate) fn take_bytes(&mut self) -> Vec<u8> {
        mem::replace(&mut self.bytes, Vec::new(self.alloc))
    }

    /// The bytes, if there was no fault and no bracket is open.
    pub(crate) fn finish(self) -> Result<Vec<u8>, RowFault> {
        let is_outside = self.is_outside();
        let ByteReader { bytes, fault, .. } = self;
        match fault {
            Some(fault) => Err(fault),
            None if is_outside => Ok(bytes),
            None => Err(RowFault::Brackets),
        }
    }
}

/// The bytes that words and marks are.
pub(crate) fn bytes_of(
    alloc: Global,
    names: &Names,
    tokens: &[Token],
) -> Result<Vec<u8>, RowFault> {
    let mut reader = ByteReader::new(alloc, names);
    for token in tokens {
        reader.take(token);
    }
    reader.finish()
}
