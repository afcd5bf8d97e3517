//! Judges the chunk lists of px_chunks by rows of text on standard input: the number of iterations, of members, the schedule, the size of
//! chunks or `-`, and behind `|` each chunk with its first place, its count and, where it has an owner, the number of that member. It prints
//! each row that isn't right, and below it what is given in place of what the row says; and last the number of rows.
#![tactic(auto)]

use px_base::Schedule;
use px_chunks::ChunkList;
use std::alloc::{AllocError, Global};
use std::io;

/// Word `at` of the part of a row before `|`, as a number.
fn number(row: &str, at: usize) -> Option<u64> {
    words(row).split_whitespace().nth(at)?.parse::<u64>().ok()
}

/// The part of a row before `|`.
fn words(row: &str) -> &str {
    row.split('|').nth(0).unwrap_or("")
}

/// The schedule that a row names.
fn schedule(row: &str) -> Option<Schedule> {
    match words(row).split_whitespace().nth(2)? {
        "static" => Some(Schedule::Static),
        "dynamic" => Some(Schedule::Dynamic),
        "guided" => Some(Schedule::Guided),
        _ => None,
    }
}

/// The chunk list that a row asks for, where its numbers are within the limits.
fn list(alloc: Global, row: &str) -> Option<ChunkList> {
    let n = number(row, 0)?;
    let members = number(row, 1)?;
    if n > 16_777_216 || members < 1 || members > 64 {
        return None;
    }
    let size = number(row, 3);
    if size == Some(0) {
        return None;
    }
    ChunkList::new(alloc, n, members as u32, schedule(row)?, size).ok()
}

/// Adds a chunk to the text.
fn add_chunk(
    alloc: Global,
    text: &mut String,
    chunk: (u64, u64),
    owner: Option<u32>,
) -> Result<(), AllocError> {
    let (first, count) = chunk;
    let part = match owner {
        Some(member) => format!(in alloc; "{first},{count},{member}")?,
        None => format!(in alloc; "{first},{count}")?,
    };
    if !text.is_empty() {
        text.push(' ')?;
    }
    text.push_str(part.as_str())
}

/// The chunks of a list.
fn shown(alloc: Global, chunks: &ChunkList) -> Result<String, AllocError> {
    let mut text = String::new(alloc);
    for k in 0..chunks.len() {
        add_chunk(alloc, &mut text, chunks.chunk(k), chunks.owner(k))?;
    }
    Ok(text)
}

/// Whether a list says the numbers that it was made of.
fn is_of(row: &str, chunks: &ChunkList) -> bool {
    number(row, 0) == Some(chunks.count())
        && number(row, 1) == Some(u64::from(chunks.members()))
        && schedule(row) == Some(chunks.schedule())
        && number(row, 3) == chunks.size()
}

/// What a row gives.
fn answer(alloc: Global, row: &str) -> Result<String, AllocError> {
    match list(alloc, row) {
        Some(chunks) => {
            if is_of(row, &chunks) {
                shown(alloc, &chunks)
            } else {
                String::from_str(alloc, "other numbers")
            }
        }
        None => String::from_str(alloc, "no list"),
    }
}

fn main(rt: HostRuntime) -> io::Result<()> {
    let mut rows = 0u64;
    for line in rt.lines(rt.alloc()) {
        let row = line?;
        let given = answer(rt.alloc(), row.as_str())?;
        if given.as_str() != row.split('|').nth(1).unwrap_or("no row") {
            println!(rt; "{row}")?;
            println!(rt; "  gives {given}")?;
        }
        rows = rows.saturating_add(1);
    }
    println!(rt; "{rows} rows")
}
