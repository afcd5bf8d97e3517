//! Judges the views of px_views by rows of text on standard input. A row begins with an array: `c` or `fortran`, its rank and three
//! extents. Behind it stands what is done to its view and what is asked of it, each with what it has to give: `turn`, `axis AXIS`,
//! `slice AXIS FROM TO STEP FAULT`, `index AXIS AT WRAPAROUND FAULT`, `cells RANK EXTENT EXTENT EXTENT PLACE..`,
//! `facts LEAST GREATEST STEP C FORTRAN`, `empty` and `at I J K WRAPAROUND FAULT PLACE`. A bound that is left out is `-`, and a fault is 0
//! where there is none, 1 to 3 for an `IndexError` on an axis and 11 to 13 for a `ValueError`. Prints each row that isn't right, and last
//! the number of rows.
#![tactic(auto)]

mod picks;
mod questions;
mod reader;

use crate::picks::{array, changed};
use crate::reader::Reader;
use std::io;

fn main(rt: HostRuntime) -> io::Result<()> {
    let mut rows = 0u64;
    for line in rt.lines(rt.alloc()) {
        let row = line?;
        if !agrees(row.as_str()) {
            println!(rt; "{row}")?;
        }
        rows = rows.saturating_add(1);
    }
    println!(rt; "{rows} rows")
}

/// Whether everything is as the row says.
fn agrees(row: &str) -> bool {
    let mut reader = Reader::new(row);
    let Some(whole) = array(&mut reader) else {
        return false;
    };
    let mut view = whole;
    for _ in 0..16 {
        view = changed(&view, &mut reader);
    }
    reader.agrees && reader.word() == ""
}
