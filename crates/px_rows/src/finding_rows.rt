//! Rows of the order of refusals.
use crate::line_rows::refusal_with;
use crate::rows::{Row, Unjudged};
use px_base::{Refusal, Trouble, earlier, first_in, precedes};

/// The refusal that a text of a row is: `ENUMBER LINE:COLUMN`.
fn refusal_of(row: &mut Row, text: &str) -> Refusal {
    let (rule, place) = text.split_once(' ').unwrap_or(("", ""));
    let (line, column) = place.split_once(':').unwrap_or(("", ""));
    let number = row.number_of(rule.strip_prefix('E').unwrap_or(""));
    let line = row.number_of(line);
    let column = row.number_of(column);
    refusal_with(row, number, line, column)
}

/// The finding that a text of a row is: a refusal, or `none`.
fn finding_of(row: &mut Row, text: &str) -> Option<Refusal> {
    if text == "none" {
        None
    } else {
        Some(refusal_of(row, text))
    }
}

/// Reads a refusal.
fn refusal(row: &mut Row) -> Refusal {
    let field = row.field();
    refusal_of(row, field)
}

/// Reads a finding.
fn finding(row: &mut Row) -> Option<Refusal> {
    let field = row.field();
    finding_of(row, field)
}

/// Gives a finding.
fn show(row: &mut Row, finding: Option<Refusal>) {
    match finding {
        Some(refusal) => row.refusal(Trouble::Refused(refusal)),
        None => row.word("none"),
    }
}

/// Two refusals, and whether the first is the second or comes before it.
pub fn order_row(row: &mut Row) {
    let first = refusal(row);
    let second = refusal(row);
    row.word(if precedes(&first, &second) {
        "true"
    } else {
        "false"
    });
}

/// Two findings, and the one that comes first.
pub fn earlier_row(row: &mut Row) {
    let first = finding(row);
    let second = finding(row);
    show(row, earlier(first, second));
}

/// Findings, with commas between them, and the one that comes first.
pub fn first_row(row: &mut Row) {
    let mut findings: Vec<Refusal> = Vec::new(row.alloc());
    for text in row.field().split(',') {
        if let Some(refusal) = finding_of(row, text) {
            if findings.push(refusal).is_err() {
                row.leave(Unjudged::NoMemory);
            }
        }
    }
    show(row, first_in(findings.as_slice()));
}
