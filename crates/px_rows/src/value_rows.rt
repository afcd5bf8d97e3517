//! Rows of values: sequences, names of functions, and statuses.
use crate::rows::Row;
use px_base::{Numbers, Status};
use px_tree::FunctionName;

/// The numbers of a sequence; those that are pushed behind them, one by one; and those that are added together. Then whether the first are
/// empty, how many there are at the end, and all of them.
pub fn sequence_row(row: &mut Row) {
    let mut numbers = Numbers::from_vec(row.numbers().into_vec());
    row.word(if numbers.is_empty() {
        "true|"
    } else {
        "false|"
    });
    for number in row.numbers().as_slice() {
        let pushed = numbers.push(*number);
        row.keep(pushed);
    }
    let added = numbers.extend_from_slice(row.numbers().as_slice());
    row.keep(added);
    row.whole_number(numbers.len() as i128);
    row.word("|");
    let mut is_first = true;
    for number in numbers.into_vec().as_slice() {
        row.separate(",", is_first);
        row.whole_number(*number as i128);
        is_first = false;
    }
}

/// A name, and the name of the function that it makes between quotes, or `none`.
pub fn name_row(row: &mut Row) {
    match FunctionName::new(row.characters()) {
        Some(name) => {
            row.word("'");
            row.spell_characters(name.as_slice());
            row.word("'");
        }
        None => row.word("none"),
    }
}

/// The words of the statuses.
const STATUSES: [(&str, Status); 10] = [
    ("Done", Status::Done),
    ("Refused", Status::Refused),
    ("Usage", Status::Usage),
    ("Raised", Status::Raised),
    ("Spent", Status::Spent),
    ("ReadFault", Status::ReadFault),
    ("WriteFault", Status::WriteFault),
    ("NoMemory", Status::NoMemory),
    ("NoFile", Status::NoFile),
    ("TooLarge", Status::TooLarge),
];

/// A status, and its number.
pub fn status_row(row: &mut Row) {
    let status = row.one_of(&STATUSES, Status::Done);
    row.whole_number(status as u8 as i128);
}
