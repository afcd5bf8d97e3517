//! Judges the phase of types by rows of text on standard input: a module, in which `%` and two hexadecimal digits stand for one byte,
//! and behind `|` its first refusal, or the text of its typed tree. A row without `|` is a heading. It prints each row that isn't right,
//! and below it what is given in place of what the row says; and last the number of rows.
#![tactic(auto)]

mod words;
mod writing;

use crate::writing::text_of;
use px_base::{Bytes, NoMemory, Trouble};
use px_lexer::lexing::tokens;
use px_names::names;
use px_parser::parse;
use px_tree::Typed;
use px_types::types;
use std::alloc::{AllocError, Global};
use std::io;

/// The value of a hexadecimal digit in upper case.
fn digit(byte: Option<u8>) -> u8 {
    match byte {
        Some(b @ b'0'..=b'9') => b - b'0',
        Some(b @ b'A'..=b'F') => b - b'A' + 10,
        _ => 0,
    }
}

/// The bytes that a text of a row stands for.
fn spelled(alloc: Global, text: &str) -> Result<Bytes, AllocError> {
    let mut bytes = Bytes::new(alloc);
    let mut left = text.bytes();
    while let Some(byte) = left.next() {
        if byte == b'%' {
            let high = digit(left.next());
            let low = digit(left.next());
            bytes.push(high << 4 | low)?;
        } else {
            bytes.push(byte)?;
        }
    }
    Ok(bytes)
}

/// The types of the module that a text is.
fn typed(alloc: Global, text: &[u8]) -> Result<Typed, Trouble> {
    let found = tokens(alloc, text)?;
    let named = names(alloc, parse(alloc, &found)?)?;
    types(alloc, named)
}

/// What a row gives.
fn answer(alloc: Global, row: &str) -> Result<String, AllocError> {
    let text = spelled(alloc, row.split('|').nth(0).unwrap_or(""))?;
    match typed(alloc, text.as_slice()) {
        Ok(typed) => match text_of(alloc, &typed) {
            Ok(text) => Ok(text),
            Err(NoMemory) => String::from_str(alloc, "no memory"),
        },
        Err(Trouble::Refused(refusal)) => format!(in alloc;
            "E{} {}:{}",
            refusal.number, refusal.line, refusal.column
        ),
        Err(Trouble::NoMemory) => String::from_str(alloc, "no memory"),
    }
}

fn main(rt: HostRuntime) -> io::Result<()> {
    let mut rows = 0u64;
    for line in rt.lines(rt.alloc()) {
        let row = line?;
        let Some(expected) = row.split('|').nth(1) else {
            continue;
        };
        let given = answer(rt.alloc(), row.as_str())?;
        if given.as_str() != expected {
            println!(rt; "{row}")?;
            println!(rt; "  gives {given}")?;
        }
        rows = rows.saturating_add(1);
    }
    println!(rt; "{rows} rows")
}
