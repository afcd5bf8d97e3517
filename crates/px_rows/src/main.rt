//! Judges the crates of pyxrun by rows of text: what each row says that calls give, and what they give.
//!
//! The rows come on standard input, in sections. A line `= NAME` without `|` begins a section; each other line with `|` is a row of it,
//! and one without `|` a heading, but for the section `arithmetic`, where each line with a word is a row. It prints each row that isn't
//! right, and below it what is given in place of what the row says; and last the number of rows of each section and of all. A line
//! with `|` that is in no section that is known is printed too.
#![tactic(auto)]

mod arithmetic_rows;
mod command_rows;
mod expression_parts;
mod expression_rows;
mod finding_rows;
mod lexer_rows;
mod line_rows;
mod module_parts;
mod module_rows;
mod outside_rows;
mod parts;
mod rows;
mod scripted_sinks;
mod scripted_streams;
mod sections;
mod spelling_names;
mod statement_parts;
mod value_rows;

use crate::rows::{Row, Unjudged};
use crate::sections::{Section, is_row, judge, section_named, separator};
use std::io;
use std::io::ErrorKind;

/// How many rows a section has.
#[derive(Drop)]
struct Tally {
    name: String,
    /// None before the first section, and where no section has that name.
    section: Option<Section>,
    rows: u64,
}

/// The name of the section that a line begins.
fn name_of(line: &str) -> Option<&str> {
    match line.strip_prefix("= ") {
        Some(name) if !name.contains('|') => Some(name),
        _ => None,
    }
}

/// Prints a line, and below it what is given in place of what it says.
fn tell(rt: &HostRuntime, line: &str, given: &str) -> io::Result<()> {
    println!(rt; "{line}")?;
    println!(rt; "  gives {given}")
}

/// Judges a row, and prints it where it isn't right.
fn judge_line(rt: &HostRuntime, section: Section, line: &str) -> io::Result<()> {
    let mut row = Row::new(rt.alloc(), line, separator(section));
    judge(rt, section, &mut row);
    match row.trouble() {
        Some(Unjudged::NoRow) => tell(rt, line, "no row"),
        Some(Unjudged::NoMemory) => Err(io::Error::from(ErrorKind::OutOfMemory)),
        None => {
            if row.is_right() {
                Ok(())
            } else {
                tell(rt, line, row.given())
            }
        }
    }
}

/// The count of a section that a line begins, which is printed where no such section is known.
fn begin(rt: &HostRuntime, line: &str, name: &str) -> io::Result<Tally> {
    let section = section_named(name);
    if section.is_none() {
        tell(rt, line, "no section")?;
    }
    let name = String::from_str(rt.alloc(), name)?;
    Ok(Tally {
        name,
        section,
        rows: 0,
    })
}

/// Prints the numbers of rows, but for those before the first section.
fn print_tallies(rt: &HostRuntime, tallies: &[Tally]) -> io::Result<()> {
    let mut all = 0u64;
    for tally in tallies.iter().skip(1) {
        let rows = tally.rows;
        let name = tally.name.as_str();
        println!(rt; "{name}: {rows} rows")?;
        all = all.saturating_add(rows);
    }
    println!(rt; "{all} rows")
}

/// Prints a line that is a row of no section.
fn tell_unjudged(rt: &HostRuntime, line: &str) -> io::Result<()> {
    if line.contains('|') {
        tell(rt, line, "no section")
    } else {
        Ok(())
    }
}

/// Judges a line behind the beginning of a section, and counts it where it is a row.
fn count_line(rt: &HostRuntime, tallies: &mut Vec<Tally>, line: &str) -> io::Result<()> {
    if let Some(tally) = tallies.last_mut() {
        match tally.section {
            Some(section) => {
                if is_row(section, line) {
                    judge_line(rt, section, line)?;
                    tally.rows = tally.rows.saturating_add(1);
                }
            }
            None => tell_unjudged(rt, line)?,
        }
    }
    Ok(())
}

fn main(rt: HostRuntime) -> io::Result<()> {
    let mut tallies: Vec<Tally> = Vec::new(rt.alloc());
    tallies.push(Tally {
        name: String::new(rt.alloc()),
        section: None,
        rows: 0,
    })?;
    for line in rt.lines(rt.alloc()) {
        let line = line?;
        match name_of(line.as_str()) {
            Some(name) => tallies.push(begin(&rt, line.as_str(), name)?)?,
            None => count_line(&rt, &mut tallies, line.as_str())?,
        }
    }
    print_tallies(&rt, tallies.as_slice())
}
