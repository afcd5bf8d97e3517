//! The codes and constants of a module, and the listing that its rows say.

use crate::instructions::instruction;
use crate::operands::Fields;
use px_base::{Chars, Constant, Numbers};
use px_regcode::{Code, Instrs, RegKind, RegKinds, Start, write_listing};
use std::alloc::{AllocError, Global};

/// A module, and the lines that its rows say.
pub struct Listed {
    codes: Vec<Code>,
    constants: Vec<Constant>,
    lines: String,
}

impl Drop for Listed {
    fn drop(self) {
        let Listed {
            codes,
            constants,
            lines,
        } = self;
    }
}

impl Listed {
    pub fn new(alloc: Global) -> Listed {
        Listed {
            codes: Vec::new(alloc),
            constants: Vec::new(alloc),
            lines: String::new(alloc),
        }
    }

    /// Adds a row. At an empty row it gives the listing, where it isn't as the rows say, and begins the next module.
    pub fn read(&mut self, alloc: Global, row: &str) -> Result<String, AllocError> {
        if row.is_empty() {
            let wrong = self.wrong(alloc)?;
            *self = Listed::new(alloc);
            return Ok(wrong);
        }
        self.add(alloc, row)?;
        Ok(String::new(alloc))
    }

    fn add(&mut self, alloc: Global, row: &str) -> Result<(), AllocError> {
        let (text, line) = row.split_once('|').unwrap_or((row, ""));
        self.lines.push_str(line)?;
        self.lines.push('\n')?;
        match text.split(' ').nth(0).unwrap_or("") {
            "function" => self.add_function(alloc, text),
            "constant" => self.add_constant(alloc, text),
            name => self.add_instruction(alloc, name, text),
        }
    }

    fn add_function(&mut self, alloc: Global, text: &str) -> Result<(), AllocError> {
        let name = text.split(' ').nth(1).unwrap_or("");
        let registers = text.split(' ').nth(2).unwrap_or("");
        let code = Code {
            name: Chars::from_vec(name.chars().collect(alloc)?),
            params: RegKinds::new(alloc),
            result: RegKind::Empty,
            start: Start::Held,
            registers: registers.parse::<u32>().unwrap_or(0),
            instrs: Instrs::new(alloc),
            lines: Numbers::new(alloc),
        };
        self.codes.push(code)?;
        Ok(())
    }

    fn add_instruction(&mut self, alloc: Global, name: &str, text: &str) -> Result<(), AllocError> {
        let fields = Fields::new(alloc, text)?;
        match self.codes.last_mut() {
            Some(code) => code.instrs.push(instruction(name, fields)),
            None => Ok(()),
        }
    }

    fn add_constant(&mut self, alloc: Global, text: &str) -> Result<(), AllocError> {
        let constant = match text.split(' ').nth(1).unwrap_or("") {
            "Text" => Constant::Text(characters(alloc, text)?),
            "Wide" => Constant::Wide(
                text.split(' ')
                    .nth(2)
                    .unwrap_or("")
                    .parse::<i128>()
                    .unwrap_or(0),
            ),
            _ => Constant::None,
        };
        self.constants.push(constant)?;
        Ok(())
    }

    /// The listing where it isn't as the rows say, and else nothing.
    fn wrong(&self, alloc: Global) -> Result<String, AllocError> {
        let Ok(given) = write_listing(alloc, self.codes.as_slice(), self.constants.as_slice())
        else {
            return String::from_str(alloc, "no memory");
        };
        if given.as_slice() == self.lines.as_str().as_bytes() {
            return Ok(String::new(alloc));
        }
        match String::from_utf8(given.into_vec()) {
            Ok(text) => Ok(text),
            Err(_) => String::from_str(alloc, "not UTF-8"),
        }
    }
}

/// The characters whose numbers stand behind the second word.
fn characters(alloc: Global, text: &str) -> Result<Chars, AllocError> {
    let mut chars = Chars::new(alloc);
    for word in text.split(' ').skip(2) {
        let code = word.parse::<u32>().unwrap_or(0);
        chars.push(char::from_u32(code).unwrap_or('?'))?;
    }
    Ok(chars)
}
