//! A row: a line of fields with a character between them, of which the last says what the row's calls give. In a field `%` and two
//! hexadecimal digits in upper case stand for one byte.
//!
//! What goes wrong while a row is judged is kept in the row, so that nothing is left in the middle of it.
ghost use Rattle.std.specs.Prelude.{◌<◌};

use px_base::{Bytes, Chars, NoMemory, Numbers, Trouble};
use std::alloc::{AllocError, Global};

/// Why a row isn't judged.
#[derive(Clone, Copy, PartialEq, Eq)]
pub enum Unjudged {
    /// It is no row of its section.
    NoRow,
    NoMemory,
}

/// A row, and what its calls gave so far.
#[derive(Drop)]
pub struct Row<'a> {
    alloc: Global,
    /// The fields that weren't read yet.
    left: &'a str,
    between: char,
    given: String,
    /// The first thing that went wrong.
    trouble: Option<Unjudged>,
}

impl<'a> Row<'a> {
    /// A row of a line.
    pub fn new(alloc: Global, line: &'a str, between: char) -> Row<'a> {
        Row {
            alloc,
            left: line,
            between,
            given: String::new(alloc),
            trouble: None,
        }
    }

    /// Where the memory of its calls comes from.
    pub fn alloc(&self) -> Global {
        self.alloc
    }

    /// What went wrong first.
    pub fn trouble(&self) -> Option<Unjudged> {
        self.trouble
    }

    /// Whether its calls gave what the fields say that weren't read.
    pub fn is_right(&self) -> bool {
        self.given.as_str() == self.left
    }

    /// What its calls gave.
    pub fn given(&self) -> &str {
        self.given.as_str()
    }

    /// Says that the row isn't judged, if nothing went wrong before.
    pub fn leave(&mut self, trouble: Unjudged) {
        if self.trouble.is_none() {
            self.trouble = Some(trouble);
        }
    }

    /// Reads the next field, which isn't the last one.
    pub fn field(&mut self) -> &'a str {
        match self.left.split_once(self.between) {
            Some((field, left)) => {
                self.left = left;
                field
            }
            None => {
                self.leave(Unjudged::NoRow);
                ""
            }
        }
    }

    /// The number in decimal digits that a text is.
    pub fn number_of(&mut self, text: &str) -> u64 {
        match text.parse::<u64>() {
            Ok(number) => number,
            Err(_) => {
                self.leave(Unjudged::NoRow);
                0
            }
        }
    }

    /// Reads a number.
    pub fn number(&mut self) -> u64 {
        let field = self.field();
        self.number_of(field)
    }

    /// Reads a number that isn't 0.
    pub fn size(&mut self) -> usize
        ensures { 0 < result }
    {
        let number = self.number() as usize;
        if number == 0 {
            self.leave(Unjudged::NoRow);
            return 1;
        }
        number
    }

    /// Reads numbers with commas between them, or none.
    pub fn numbers(&mut self) -> Numbers {
        let mut numbers = Numbers::new(self.alloc);
        let list = self.field();
        if !list.is_empty() {
            for text in list.split(',') {
                let number = self.number_of(text);
                let pushed = numbers.push(number);
                self.keep(pushed);
            }
        }
        numbers
    }

    /// Reads a word of a table, and gives what stands beside it there; this other value where the table hasn't the word.
    pub fn one_of<T: Copy>(&mut self, table: &[(&str, T)], other: T) -> T {
        let field = self.field();
        for (word, value) in table {
            if *word == field {
                return *value;
            }
        }
        self.leave(Unjudged::NoRow);
        other
    }

    /// Says that there was no memory, if there wasn't.
    pub fn keep(&mut self, done: Result<(), AllocError>) {
        if done.is_err() {
            self.leave(Unjudged::NoMemory);
        }
    }

    /// The byte that two hexadecimal digits in upper case stand for.
    fn escaped(&mut self, high: Option<u8>, low: Option<u8>) -> u8 {
        match (digit(high), digit(low)) {
            (Some(high), Some(low)) => high << 4 | low,
            _ => {
                self.leave(Unjudged::NoRow);
                0
            }
        }
    }

    /// The bytes that a text stands for.
    pub fn spelled(&mut self, text: &str) -> Bytes {
        let mut bytes = Bytes::new(self.alloc);
        let mut left = text.bytes();
        while let Some(byte) = left.next() {
            let mut byte = byte;
            if byte == b'%' {
                let high = left.next();
                let low = left.next();
                byte = self.escaped(high, low);
            }
            let pushed = bytes.push(byte);
            self.keep(pushed);
        }
        bytes
    }

    /// Reads bytes.
    pub fn bytes(&mut self) -> Bytes {
        let field = self.field();
        self.spelled(field)
    }

    /// The characters that a text stands for.
    pub fn characters_of(&mut self, text: &str) -> Chars {
        let mut characters = Chars::new(self.alloc);
        let bytes = self.spelled(text);
        match str::from_utf8(bytes.as_slice()) {
            Ok(text) => {
                for c in text.chars() {
                    let pushed = characters.push(c);
                    self.keep(pushed);
                }
            }
            Err(_) => self.leave(Unjudged::NoRow),
        }
        characters
    }

    /// Reads characters.
    pub fn characters(&mut self) -> Chars {
        let field = self.field();
        self.characters_of(field)
    }

    /// A text of its own.
    pub fn owned(&mut self, text: &str) -> String {
        match String::from_str(self.alloc, text) {
            Ok(owned) => owned,
            Err(_) => {
                self.leave(Unjudged::NoMemory);
                String::new(self.alloc)
            }
        }
    }

    /// Adds bytes to a text so many times.
    pub fn repeat(&mut self, text: &mut Bytes, part: &Bytes, count: u64) {
        for _ in 0..count {
            let added = text.extend_from_slice(part.as_slice());
            self.keep(added);
        }
    }

    /// Gives a word that stands for itself.
    pub fn word(&mut self, word: &str) {
        let added = self.given.push_str(word);
        self.keep(added);
    }

    /// Gives what stands between two parts, where this part isn't the first.
    pub fn separate(&mut self, between: &str, is_first: bool) {
        if !is_first {
            self.word(between);
        }
    }

    /// Gives a text that was made.
    pub fn text(&mut self, made: Result<String, AllocError>) {
        match made {
            Ok(text) => self.word(text.as_str()),
            Err(_) => self.leave(Unjudged::NoMemory),
        }
    }

    /// Gives a number.
    pub fn whole_number(&mut self, number: i128) {
        let text = format!(in self.alloc; "{number}");
        self.text(text);
    }

    /// Gives bytes, spelled as a field has them.
    pub fn spell(&mut self, bytes: &[u8]) {
        for byte in bytes {
            if is_plain(*byte) {
                let added = self.given.push(char::from(*byte));
                self.keep(added);
            } else {
                let escape = format!(in self.alloc; "%{byte:02X}");
                self.text(escape);
            }
        }
    }

    /// Gives characters, spelled as a field has them.
    pub fn spell_characters(&mut self, characters: &[char]) {
        let mut text = String::new(self.alloc);
        for c in characters {
            let added = text.push(*c);
            self.keep(added);
        }
        self.spell(text.as_bytes());
    }

    /// Gives the number and place of a refusal.
    pub fn refusal(&mut self, trouble: Trouble) {
        match trouble {
            Trouble::Refused(refusal) => {
                let text = format!(in self.alloc;
                    "E{} {}:{}",
                    refusal.number, refusal.line, refusal.column
                );
                self.text(text);
            }
            Trouble::NoMemory => self.leave(Unjudged::NoMemory),
        }
    }

    /// Gives the text in bytes that were made.
    pub fn line(&mut self, made: Result<Bytes, NoMemory>) {
        match made {
            Ok(bytes) => self.spell(bytes.as_slice()),
            Err(NoMemory) => self.leave(Unjudged::NoMemory),
        }
    }
}

/// The value of a hexadecimal digit in upper case.
fn digit(byte: Option<u8>) -> Option<u8> {
    match byte {
        Some(b @ b'0'..=b'9') => Some(b - b'0'),
        Some(b @ b'A'..=b'F') => Some(b - b'A' + 10),
        _ => None,
    }
}

/// Whether a byte stands for itself.
fn is_plain(byte: u8) -> bool {
    matches!(byte, b' '..=b'~') && byte != b'%' && byte != b'|'
}
