//! The fields of an entry, and what they are.

ghost use Rattle.std.specs.Prelude.{◌≡◌, Ok, IfOk};

use crate::bytes::bytes_of;
use crate::fault::RowFault;
use crate::names::Names;
use crate::text_writer::TextWriter;
use crate::token::Token;
use mls_check::Receipts;
use mls_tree::PublicTree;
use mls_wire::{Decode, Opaque, read_all_of};
use std::alloc::Global;
use std::cell::Cell;
use std::mem;

/// The fields before the `=`, of which the first is the kind or the name that is defined, and what follows it.
#[derive(Drop)]
pub(crate) struct Parts {
    pub(crate) fields: Vec<Vec<Token>>,
    pub(crate) expected: Vec<Token>,
}

/// What was made. An allocation failed if it was not.
pub(crate) fn have<T, E: Drop>(made: Result<T, E>) -> Result<T, RowFault>
    ensures { IfOk result (λ value. made ≡ Ok value) }
{
    match made {
        Ok(value) => Ok(value),
        Err(_) => Err(RowFault::OutOfMemory),
    }
}

/// The parts of an entry.
pub(crate) fn parts_of(alloc: Global, tokens: Vec<Token>) -> Result<Parts, RowFault> {
    let mut fields = Vec::new(alloc);
    let mut last = Vec::new(alloc);
    let mut has_result = false;
    for token in tokens {
        match token {
            Token::Bar if !has_result => fields.push(mem::replace(&mut last, Vec::new(alloc)))?,
            Token::Equals if !has_result => {
                has_result = true;
                fields.push(mem::replace(&mut last, Vec::new(alloc)))?;
            }
            token => last.push(token)?,
        }
    }
    if !has_result {
        return Err(RowFault::NoResult);
    }
    Ok(Parts {
        fields,
        expected: last,
    })
}

/// The word that is all of a field.
pub(crate) fn only_word(field: &[Token]) -> Option<&str> {
    match field {
        [Token::Word(word)] => Some(word.as_str()),
        _ => None,
    }
}

/// The number that a word is.
fn number_of(token: &Token) -> Option<u32> {
    match token {
        Token::Word(word) => word.as_str().parse::<u32>().ok(),
        _ => None,
    }
}

/// The time at the front of a field, which is `at` and a number, and what follows it. `None` if the field has no such front.
fn after_time(field: &[Token]) -> Option<(u64, &[Token])> {
    match field {
        [Token::Word(word), Token::Word(seconds), rest @ ..] => match word.as_str() {
            "at" => {
                let time = seconds.as_str().parse::<u64>().ok()?;
                Some((time, rest))
            }
            _ => None,
        },
        _ => None,
    }
}

/// A row's fields, with what is needed to read them, and the first fault that was found of them.
#[derive(Drop)]
pub(crate) struct Row<'a> {
    pub(crate) alloc: Global,
    pub(crate) names: &'a Names,
    pub(crate) fields: &'a [Vec<Token>],
    pub(crate) fault: Cell<Option<RowFault>>,
}

impl<'a> Row<'a> {
    /// The first fault that was found, if there is one. It is forgotten.
    pub(crate) fn take_fault(&self) -> Option<RowFault> {
        self.fault.take()
    }

    /// Records a fault, unless there is one.
    pub(crate) fn record(&self, fault: RowFault) {
        match self.fault.take() {
            Some(first) => self.fault.set(Some(first)),
            None => self.fault.set(Some(fault)),
        }
    }

    /// Records that a field isn't of its kind.
    pub(crate) fn refuse(&self, at: usize, what: &'static str) {
        self.record(RowFault::Field(at, what));
    }

    /// Records that memory ran out, if something was not made.
    pub(crate) fn require<T: Drop, E: Drop>(&self, made: Result<T, E>) {
        if made.is_err() {
            self.record(RowFault::OutOfMemory);
        }
    }

    /// How many fields there follow the kind.
    pub(crate) fn len(&self) -> usize {
        self.fields.len().saturating_sub(1)
    }

    /// Records a fault unless there are this many.
    pub(crate) fn has(&self, count: usize) {
        if self.len() != count {
            self.record(RowFault::Fields(count));
        }
    }

    /// Records a fault unless there are this many or more.
    pub(crate) fn has_at_least(&self, count: usize) {
        if self.len() < count {
            self.record(RowFault::Fields(count));
        }
    }

    /// A field, of which the first is 1 and the kind is 0.
    pub(crate) fn field(&self, at: usize) -> &'a [Token] {
        match self.fields.get(at) {
            Some(field) => field.as_slice(),
            None => &[],
        }
    }

    /// A field that is a word.
    pub(crate) fn word(&self, at: usize) -> &'a str {
        only_word(self.field(at)).unwrap_or("")
    }

    /// A field that is a number.
    pub(crate) fn number(&self, at: usize) -> u32 {
        let number = match self.field(at) {
            [token] => number_of(token),
            _ => None,
        };
        if number.is_none() {
            self.refuse(at, "a number");
        }
        number.unwrap_or(0)
    }

    /// A field that is a number of 16 bits.
    pub(crate) fn short_number(&self, at: usize) -> u16 {
        match u16::try_from(self.number(at)) {
            Ok(number) => number,
            Err(_) => {
                self.refuse(at, "a number of 16 bits");
                0
            }
        }
    }

    /// A field that is a list of numbers.
    pub(crate) fn numbers(&self, at: usize) -> Vec<u32> {
        let mut numbers = Vec::new(self.alloc);
        for token in self.field(at) {
            match number_of(token) {
                Some(number) => self.require(numbers.push(number)),
                None => self.refuse(at, "numbers"),
            }
        }
        numbers
    }

    /// What was made. The fault is recorded if it was not.
    pub(crate) fn some<T: Drop>(&self, made: Result<T, RowFault>) -> Option<T> {
        match made {
            Ok(value) => Some(value),
            Err(fault) => {
                self.record(fault);
                None
            }
        }
    }

    /// Bytes that were made. The fault is recorded if they were not, and there are none.
    pub(crate) fn made(&self, made: Result<Vec<u8>, RowFault>) -> Vec<u8> {
        match made {
            Ok(bytes) => bytes,
            Err(fault) => {
                self.record(fault);
                Vec::new(self.alloc)
            }
        }
    }

    /// The bytes that words and marks are.
    fn bytes_of(&self, tokens: &[Token]) -> Vec<u8> {
        self.made(bytes_of(self.alloc, self.names, tokens))
    }

    /// A field that is bytes.
    pub(crate) fn bytes(&self, at: usize) -> Vec<u8> {
        self.bytes_of(self.field(at))
    }

    /// A field that is a message: its bytes, and the time at which it is taken, if `at` and a number are before them.
    pub(crate) fn timed_bytes(&self, at: usize) -> (Option<u64>, Vec<u8>) {
        match after_time(self.field(at)) {
            Some((time, rest)) => (Some(time), self.bytes_of(rest)),
            None => (None, self.bytes(at)),
        }
    }

    /// The bytes of a field after its first word.
    pub(crate) fn bytes_after_word(&self, at: usize) -> Vec<u8> {
        match self.field(at) {
            [_, rest @ ..] => self.bytes_of(rest),
            [] => {
                self.refuse(at, "a word and bytes");
                Vec::new(self.alloc)
            }
        }
    }

    /// A field that is text.
    pub(crate) fn text(&self, at: usize) -> String {
        match String::from_utf8(self.bytes(at)) {
            Ok(text) => text,
            Err(_) => {
                self.refuse(at, "text");
                String::new(self.alloc)
            }
        }
    }

    /// A field that is the bytes of an opaque value.
    pub(crate) fn opaque(&self, at: usize) -> Result<Opaque, RowFault> {
        have(Opaque::copy(self.alloc, self.bytes(at).as_slice()))
    }

    /// A field whose bytes are the encoding of a value.
    pub(crate) fn value<T: Decode>(&self, at: usize, what: &'static str) -> Result<T, RowFault> {
        match read_all_of(self.alloc, self.bytes(at).as_slice()) {
            Ok(value) => Ok(value),
            Err(_) => Err(RowFault::Field(at, what)),
        }
    }

    /// A field that is the encoding of a tree.
    fn encoded_tree(&self, at: usize, field: &[Token]) -> Result<PublicTree, RowFault> {
        match PublicTree::decode(self.alloc, self.bytes_of(field).as_slice()) {
            Ok(tree) => Ok(tree),
            Err(_) => Err(RowFault::Field(at, "a tree")),
        }
    }

    /// A tree of blank nodes.
    fn blank_tree(&self, at: usize, leaves: u32) -> Result<PublicTree, RowFault> {
        match PublicTree::blank(self.alloc, leaves) {
            Ok(tree) => Ok(tree),
            Err(_) => Err(RowFault::Field(at, "a tree")),
        }
    }

    /// The tree of an encoding, extended to a number of leaves.
    fn extended_tree(
        &self,
        at: usize,
        leaves: u32,
        field: &[Token],
    ) -> Result<PublicTree, RowFault> {
        let mut tree = self.encoded_tree(at, field)?;
        for _ in 0..20 {
            if tree.leaf_count() < leaves && tree.extend().is_err() {
                self.refuse(at, "a tree");
            }
        }
        Ok(tree)
    }

    /// A field that is a tree: the encoding of a ratchet_tree; `blank` and a number of leaves; or `of`, a number of leaves and the
    /// encoding of a tree that is extended to this size.
    pub(crate) fn tree(&self, at: usize) -> Result<PublicTree, RowFault> {
        let field = self.field(at);
        match field {
            [Token::Word(word), Token::Word(leaves), rest @ ..] => {
                let leaves = leaves.as_str().parse::<u32>().unwrap_or(0);
                match word.as_str() {
                    "blank" => self.blank_tree(at, leaves),
                    "of" => self.extended_tree(at, leaves, rest),
                    _ => self.encoded_tree(at, field),
                }
            }
            _ => self.encoded_tree(at, field),
        }
    }

    /// Whether each signature is taken as good: the field is `trust`.
    pub(crate) fn is_trusting(&self, at: usize) -> bool {
        self.word(at) == "trust"
    }

    /// A field that is the receipts of good signatures, each of 32 bytes.
    pub(crate) fn receipts(&self, at: usize) -> Receipts {
        let bytes = self.bytes(at);
        let mut lines = TextWriter::new(self.alloc);
        for receipt in bytes.as_slice().chunks(32) {
            lines.add_digits(receipt);
            lines.add("\n");
        }
        match lines.finish() {
            Ok(lines) => self.receipts_of(at, lines.as_str()),
            Err(fault) => {
                self.record(fault);
                Receipts::new(self.alloc)
            }
        }
    }

    /// The receipts of the lines of a file.
    fn receipts_of(&self, at: usize, lines: &str) -> Receipts {
        match Receipts::read(self.alloc, lines.as_bytes()) {
            Ok(listed) => listed,
            Err(_) => {
                self.refuse(at, "receipts");
                Receipts::new(self.alloc)
            }
        }
    }
}
