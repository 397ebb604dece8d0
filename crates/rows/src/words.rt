//! Reads the words of an input, as Rust writes literals.
use crate::{Fault, Word};
use std::alloc::{AllocError, Global};

// What a quoted word becomes.
#[derive(Clone, Copy)]
enum Kind {
    Text,
    Bytes,
    Byte,
    Char,
}

// Where the reading of an input stands.
#[derive(Clone, Copy)]
enum State {
    Between,
    Plain,
    Quoted(Kind),
    Escaped(Kind),
    // After `\x`, with the number of digits and what they write.
    Hex(Kind, u8, u32),
    // After `\u`, with what the digits write.
    Unicode(Kind, u32),
    Faulty,
}

/// The words of a row's input, as Rust writes literals: `"a\u{e9}"` is a text, `b"\xff"` bytes,
/// `'x'` a character, and a word without quotes stands for itself.
///
/// Blanks, commas, `&` and brackets part words.
#[derive(Debug, Drop)]
pub struct Words {
    words: Vec<Word>,
}

// The words so far, and the one that is being read.
#[derive(Drop)]
struct Reading {
    alloc: Global,
    words: Vec<Word>,
    text: String,
    bytes: Vec<u8>,
    state: State,
}

// Returns whether a sign is the quote that ends a word of this kind.
fn ends(kind: Kind, sign: char) -> bool {
    match kind {
        Kind::Text | Kind::Bytes => sign == '"',
        Kind::Byte | Kind::Char => sign == '\'',
    }
}

// Returns whether a sign stands between words.
fn parts(sign: char) -> bool {
    matches!(sign, ' ' | ',' | '(' | ')' | '[' | ']' | '&')
}

impl Reading {
    // Adds a character to the word.
    fn add(&mut self, kind: Kind, sign: char) -> Result<(), AllocError> {
        match (kind, u8::try_from(u32::from(sign))) {
            (Kind::Bytes | Kind::Byte, Ok(byte)) => {
                self.bytes.push(byte)?;
                Ok(())
            }
            (Kind::Bytes | Kind::Byte, Err(_)) => {
                self.state = State::Faulty;
                Ok(())
            }
            _ => self.text.push(sign),
        }
    }

    // Ends the word without quotes that is being read.
    fn end_plain(&mut self) -> Result<(), AllocError> {
        let text = std::mem::replace(&mut self.text, String::new(self.alloc));
        self.words.push(Word::Plain(text))?;
        Ok(())
    }

    // Ends the quoted word that is being read.
    fn end_quoted(&mut self, kind: Kind) -> Result<(), AllocError> {
        let text = std::mem::replace(&mut self.text, String::new(self.alloc));
        let bytes = std::mem::replace(&mut self.bytes, Vec::new(self.alloc));
        self.state = State::Between;
        let word = match kind {
            Kind::Text => Word::Text(text),
            Kind::Bytes | Kind::Byte => Word::Bytes(bytes),
            Kind::Char => match text.as_str().chars().next() {
                Some(sign) => Word::Char(sign),
                None => Word::Text(text),
            },
        };
        self.words.push(word)?;
        Ok(())
    }

    // Begins a word with its first sign.
    fn begin(&mut self, sign: char) -> Result<(), AllocError> {
        match sign {
            '"' => self.state = State::Quoted(Kind::Text),
            '\'' => self.state = State::Quoted(Kind::Char),
            sign if parts(sign) => {}
            sign => {
                self.state = State::Plain;
                self.text.push(sign)?;
            }
        }
        Ok(())
    }

    // Reads a sign in a word without quotes.
    fn go_on(&mut self, sign: char) -> Result<(), AllocError> {
        match sign {
            '"' | '\'' if self.text.as_str() == "b" => {
                self.text.clear();
                let kind = if sign == '"' { Kind::Bytes } else { Kind::Byte };
                self.state = State::Quoted(kind);
                Ok(())
            }
            sign if parts(sign) => {
                self.state = State::Between;
                self.end_plain()
            }
            sign => self.text.push(sign),
        }
    }

    // Reads the sign after a backslash.
    fn unescape(&mut self, kind: Kind, sign: char) -> Result<(), AllocError> {
        self.state = State::Quoted(kind);
        match sign {
            'n' => self.add(kind, '\n'),
            't' => self.add(kind, '\t'),
            'r' => self.add(kind, '\r'),
            '0' => self.add(kind, '\0'),
            'x' => {
                self.state = State::Hex(kind, 0, 0);
                Ok(())
            }
            'u' => {
                self.state = State::Unicode(kind, 0);
                Ok(())
            }
            sign => self.add(kind, sign),
        }
    }

    // Reads a digit of `\x`, and adds what the two write.
    fn read_hex(
        &mut self,
        kind: Kind,
        count: u8,
        value: u32,
        sign: char,
    ) -> Result<(), AllocError> {
        let digit = sign.to_digit(16).unwrap_or(0);
        let value = value.saturating_mul(16).saturating_add(digit);
        if count == 0 {
            self.state = State::Hex(kind, 1, value);
            return Ok(());
        }
        self.state = State::Quoted(kind);
        self.add(kind, char::from_u32(value).unwrap_or('\0'))
    }

    // Reads a sign of `\u{..}`, and adds what the digits write.
    fn read_unicode(&mut self, kind: Kind, value: u32, sign: char) -> Result<(), AllocError> {
        match sign {
            '{' => Ok(()),
            '}' => {
                self.state = State::Quoted(kind);
                self.add(kind, char::from_u32(value).unwrap_or('\0'))
            }
            sign => {
                let digit = sign.to_digit(16).unwrap_or(0);
                self.state = State::Unicode(kind, value.saturating_mul(16).saturating_add(digit));
                Ok(())
            }
        }
    }

    // Reads a sign.
    fn read(&mut self, sign: char) -> Result<(), AllocError> {
        match self.state {
            State::Between => self.begin(sign),
            State::Plain => self.go_on(sign),
            State::Quoted(kind) if ends(kind, sign) => self.end_quoted(kind),
            State::Quoted(kind) if sign == '\\' => {
                self.state = State::Escaped(kind);
                Ok(())
            }
            State::Quoted(kind) => self.add(kind, sign),
            State::Escaped(kind) => self.unescape(kind, sign),
            State::Hex(kind, count, value) => self.read_hex(kind, count, value, sign),
            State::Unicode(kind, value) => self.read_unicode(kind, value, sign),
            State::Faulty => Ok(()),
        }
    }
}

impl Words {
    /// Reads the words of an input. One that is not closed, or that holds a character that is no
    /// byte, is no input of any call.
    pub fn read(alloc: Global, input: &str) -> Result<Words, Fault> {
        let mut reading = Reading {
            alloc,
            words: Vec::new(alloc),
            text: String::new(alloc),
            bytes: Vec::new(alloc),
            state: State::Between,
        };
        for sign in input.chars() {
            reading.read(sign)?;
        }
        match reading.state {
            State::Between => {}
            State::Plain => reading.end_plain()?,
            _ => return Err(Fault::NoSuchCall),
        }
        Ok(Words {
            words: reading.words,
        })
    }

    /// Returns how many words there are.
    pub fn len(&self) -> usize {
        self.words.len()
    }

    /// Returns whether there are none.
    pub fn is_empty(&self) -> bool {
        self.words.is_empty()
    }

    /// Returns a word, counted from 0.
    pub fn word(&self, index: usize) -> Result<&Word, Fault> {
        self.words.get(index).ok_or(Fault::NoSuchCall)
    }

    /// Returns a text.
    pub fn text(&self, index: usize) -> Result<&str, Fault> {
        match self.words.get(index) {
            Some(Word::Text(text)) => Ok(text.as_str()),
            _ => Err(Fault::NoSuchCall),
        }
    }

    /// Returns bytes: `b"..."`, or the bytes of a text.
    pub fn bytes(&self, index: usize) -> Result<&[u8], Fault> {
        match self.words.get(index) {
            Some(Word::Bytes(bytes)) => Ok(bytes.as_slice()),
            Some(Word::Text(text)) => Ok(text.as_str().as_bytes()),
            _ => Err(Fault::NoSuchCall),
        }
    }

    /// Returns a character.
    pub fn sign(&self, index: usize) -> Result<char, Fault> {
        match self.words.get(index) {
            Some(Word::Char(sign)) => Ok(*sign),
            _ => Err(Fault::NoSuchCall),
        }
    }

    /// Returns a word without quotes.
    pub fn plain(&self, index: usize) -> Result<&str, Fault> {
        match self.words.get(index) {
            Some(Word::Plain(text)) => Ok(text.as_str()),
            _ => Err(Fault::NoSuchCall),
        }
    }

    /// Returns a number: a word without quotes that writes one in decimal digits, or in
    /// hexadecimal digits after `0x`.
    pub fn number(&self, index: usize) -> Result<usize, Fault> {
        let text = self.plain(index)?;
        let read = match text.strip_prefix("0x") {
            Some(digits) => usize::from_str_radix(digits, 16),
            None => text.parse::<usize>(),
        };
        match read {
            Ok(number) => Ok(number),
            Err(_) => Err(Fault::NoSuchCall),
        }
    }
}
