//! The result that a row expects.

use crate::bytes::ByteReader;
use crate::fault::RowFault;
use crate::names::Names;
use crate::text_writer::TextWriter;
use crate::token::Token;
use std::alloc::Global;

/// The word of a result that is itself.
fn plain(token: &Token) -> Option<&str> {
    match token {
        Token::Word(word) if !word.as_str().starts_with('$') => Some(word.as_str()),
        Token::Bar => Some("|"),
        Token::Equals => Some("="),
        _ => None,
    }
}

/// Adds the bytes that were read, if no bracket is open.
fn add_bytes(text: &mut TextWriter, reader: &mut ByteReader<'_>) {
    if reader.is_outside() {
        text.separate(" ");
        text.add_digits(reader.take_bytes().as_slice());
    }
}

/// Words with a space between two. Names, texts, vectors, hashes and groups are the hexadecimal digits of their bytes; any
/// other word is itself.
pub(crate) fn expected_of(
    alloc: Global,
    names: &Names,
    tokens: &[Token],
) -> Result<String, RowFault> {
    let mut text = TextWriter::new(alloc);
    let mut reader = ByteReader::new(alloc, names);
    for token in tokens {
        match plain(token) {
            Some(word) if reader.is_outside() => {
                text.separate(" ");
                text.add(word);
            }
            _ => {
                reader.take(token);
                add_bytes(&mut text, &mut reader);
            }
        }
    }
    match reader.finish() {
        Ok(_) => text.finish(),
        Err(fault) => Err(fault),
    }
}
