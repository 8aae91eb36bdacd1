//! The words and marks of an entry.

use crate::fault::RowFault;
use std::alloc::Global;
use std::mem;

/// What a bracket makes of the bytes in it.
#[derive(Clone, Copy, PartialEq, Eq)]
pub(crate) enum Bracket {
    /// `( .. )`: themselves.
    Group,
    /// `< .. >`: a vector (RFC 9420, 2.1.2).
    Vector,
    /// `H( .. )`: their SHA-256.
    Sha256,
    /// `H384( .. )`: their SHA-384.
    Sha384,
    /// `H512( .. )`: their SHA-512.
    Sha512,
    /// `hex( .. )`: the text of their hexadecimal digits.
    Digits,
    /// `x16( .. )`: the bytes 16 times.
    Times(usize),
}

/// A word or a mark.
#[derive(Drop)]
pub(crate) enum Token {
    /// Anything else: digits, a name, or a word of a result.
    Word(String),
    /// `".."` or `'..'`, by what is between the marks.
    Text(String),
    /// A bracket that opens.
    Open(Bracket),
    /// `>`.
    CloseVector,
    /// `)`.
    Close,
    /// `|`.
    Bar,
    /// `=`.
    Equals,
}

/// A reader of the words and marks of an entry.
#[derive(Drop)]
struct Lexer {
    alloc: Global,
    word: String,
    /// The mark that ends the text that is being read.
    end: Option<char>,
    tokens: Vec<Token>,
    /// Whether there was memory for all.
    is_whole: bool,
}

impl Lexer {
    /// The word until here; it begins again.
    fn take_word(&mut self) -> String {
        mem::replace(&mut self.word, String::new(self.alloc))
    }

    /// Adds a word or a mark.
    fn push(&mut self, token: Token) {
        if self.tokens.push(token).is_err() {
            self.is_whole = false;
        }
    }

    /// Adds a character to the word.
    fn push_character(&mut self, c: char) {
        if self.word.push(c).is_err() {
            self.is_whole = false;
        }
    }

    /// Ends the word, if there is one.
    fn end_word(&mut self) {
        if !self.word.is_empty() {
            let word = self.take_word();
            self.push(Token::Word(word));
        }
    }

    /// Ends the word before a mark.
    fn mark(&mut self, token: Token) {
        self.end_word();
        self.push(token);
    }

    /// The round bracket after the word until here.
    fn bracket(&self) -> Bracket {
        match self.word.as_str() {
            "H" => Bracket::Sha256,
            "H384" => Bracket::Sha384,
            "H512" => Bracket::Sha512,
            "hex" => Bracket::Digits,
            word => match word
                .strip_prefix('x')
                .and_then(|count| count.parse::<usize>().ok())
            {
                Some(count) => Bracket::Times(count),
                None => Bracket::Group,
            },
        }
    }

    /// Opens a round bracket.
    fn open(&mut self) {
        let bracket = self.bracket();
        if bracket != Bracket::Group {
            self.word.clear();
        }
        self.mark(Token::Open(bracket));
    }

    /// Reads a character of a text.
    fn take_in_text(&mut self, end: char, c: char) {
        if c == end {
            self.end = None;
            let text = self.take_word();
            self.push(Token::Text(text));
        } else {
            self.push_character(c);
        }
    }

    /// Begins a text, which ends with the mark that it begins with.
    fn open_text(&mut self, mark: char) {
        self.end_word();
        self.end = Some(mark);
    }

    /// Reads a character outside of texts.
    fn take_outside(&mut self, c: char) {
        match c {
            ' ' => self.end_word(),
            '"' => self.open_text(c),
            '\'' if self.word.is_empty() => self.open_text(c),
            '<' => self.mark(Token::Open(Bracket::Vector)),
            '>' => self.mark(Token::CloseVector),
            '(' => self.open(),
            ')' => self.mark(Token::Close),
            '|' => self.mark(Token::Bar),
            '=' => self.mark(Token::Equals),
            _ => self.push_character(c),
        }
    }

    /// Reads a character.
    fn take(&mut self, c: char) {
        match self.end {
            Some(end) => self.take_in_text(end, c),
            None => self.take_outside(c),
        }
    }

    /// The words and marks.
    fn finish(mut self) -> Result<Vec<Token>, RowFault> {
        self.end_word();
        let Lexer {
            end,
            tokens,
            is_whole,
            ..
        } = self;
        if !is_whole {
            Err(RowFault::OutOfMemory)
        } else if end.is_some() {
            Err(RowFault::Text)
        } else {
            Ok(tokens)
        }
    }
}

/// The words and marks of an entry.
pub(crate) fn tokens_of(alloc: Global, text: &str) -> Result<Vec<Token>, RowFault> {
    let mut lexer = Lexer {
        alloc,
        word: String::new(alloc),
        end: None,
        tokens: Vec::new(alloc),
        is_whole: true,
    };
    for c in text.chars() {
        lexer.take(c);
    }
    lexer.finish()
}
