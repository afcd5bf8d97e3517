//! Judges the listing of px_regcode by rows of text on standard input, each with a line of a listing behind `|`. A row before it says
//! `function NAME REGISTERS`; or an instruction of the function by the name of its variant and its operands in order (`operands.rt` says
//! how); or a constant, as `Text` with the numbers of its characters, `Wide` with its value, or `None`. The rows up to an empty line, or
//! to the end, are one module. Prints the listing of each module that isn't as its rows say, and last the number of rows.
#![tactic(auto)]

mod instructions;
mod modules;
mod operands;
mod words;

use crate::modules::Listed;
use std::io;

fn main(rt: HostRuntime) -> io::Result<()> {
    let mut rows = 0u64;
    let mut listed = Listed::new(rt.alloc());
    for line in rt.lines(rt.alloc()) {
        let row = line?;
        let wrong = listed.read(rt.alloc(), row.as_str())?;
        print!(rt; "{wrong}")?;
        if !row.is_empty() {
            rows = rows.saturating_add(1);
        }
    }
    let wrong = listed.read(rt.alloc(), "")?;
    print!(rt; "{wrong}")?;
    println!(rt; "{rows} rows")
}
