//! The sections of rows, by their names.
use crate::arithmetic_rows::arithmetic_row;
use crate::command_rows::{
    TopCall, check_row, command_row, list_row, run_row, scripted_row, starved_row,
};
use crate::expression_rows::{
    expression_row, extent_row, limit_row, long_row, nesting_row, start_row,
};
use crate::finding_rows::{earlier_row, first_row, order_row};
use crate::lexer_rows::{long_text_row, tokens_row};
use crate::line_rows::{fault_row, refusal_row};
use crate::module_rows::{blocks_row, module_row, nested_row, verdict_row};
use crate::outside_rows::{
    folder_row, input_row, library_row, scripted_input_row, scripted_output_row, sink_row,
    source_row,
};
use crate::rows::{Row, Unjudged};
use crate::value_rows::{name_row, sequence_row, status_row};
use std::rt;

/// A section of rows, which all make the same calls.
#[derive(Clone, Copy, PartialEq, Eq)]
pub enum Section {
    Tokens,
    LongTexts,
    Expressions,
    Starts,
    Nesting,
    LongExpressions,
    Limits,
    Extents,
    Modules,
    NestedBlocks,
    NestedExpressions,
    Verdicts,
    Commands,
    CheckCommands,
    Runs,
    Checks,
    Listings,
    ScriptedCommands,
    StarvedCommands,
    Libraries,
    Folders,
    Sources,
    Inputs,
    ScriptedInputs,
    Sinks,
    ScriptedOutputs,
    Arithmetic,
    Refusals,
    Faults,
    Orders,
    EarlierFindings,
    FirstFindings,
    Sequences,
    FunctionNames,
    Statuses,
}

/// The names of the sections.
const SECTIONS: [(&str, Section); 35] = [
    ("tokens", Section::Tokens),
    ("long texts", Section::LongTexts),
    ("expressions", Section::Expressions),
    ("starts", Section::Starts),
    ("nesting", Section::Nesting),
    ("long expressions", Section::LongExpressions),
    ("limits", Section::Limits),
    ("extents", Section::Extents),
    ("modules", Section::Modules),
    ("nested blocks", Section::NestedBlocks),
    ("nested expressions", Section::NestedExpressions),
    ("verdicts", Section::Verdicts),
    ("commands", Section::Commands),
    ("check commands", Section::CheckCommands),
    ("runs", Section::Runs),
    ("checks", Section::Checks),
    ("listings", Section::Listings),
    ("scripted commands", Section::ScriptedCommands),
    ("starved commands", Section::StarvedCommands),
    ("libraries", Section::Libraries),
    ("folders", Section::Folders),
    ("sources", Section::Sources),
    ("inputs", Section::Inputs),
    ("scripted inputs", Section::ScriptedInputs),
    ("sinks", Section::Sinks),
    ("scripted outputs", Section::ScriptedOutputs),
    ("arithmetic", Section::Arithmetic),
    ("refusals", Section::Refusals),
    ("faults", Section::Faults),
    ("orders", Section::Orders),
    ("earlier findings", Section::EarlierFindings),
    ("first findings", Section::FirstFindings),
    ("sequences", Section::Sequences),
    ("function names", Section::FunctionNames),
    ("statuses", Section::Statuses),
];

/// The section with a name.
pub fn section_named(name: &str) -> Option<Section> {
    for (known, section) in SECTIONS.iter() {
        if *known == name {
            return Some(*section);
        }
    }
    None
}

/// The character between the fields of the rows of a section.
pub fn separator(section: Section) -> char {
    if section == Section::Arithmetic {
        ' '
    } else {
        '|'
    }
}

/// Whether a line of a section is a row.
pub fn is_row(section: Section, line: &str) -> bool {
    if section == Section::Arithmetic {
        !line.is_empty()
    } else {
        line.contains('|')
    }
}

/// Makes the calls of a row of a section.
pub fn judge<R: rt::Files>(files: &R, section: Section, row: &mut Row) {
    match section {
        Section::Folders => folder_row(files, row),
        Section::Tokens => tokens_row(row),
        Section::LongTexts => long_text_row(row),
        Section::Expressions => expression_row(row),
        Section::Starts => start_row(row),
        Section::Nesting => nesting_row(row),
        Section::LongExpressions => long_row(row),
        Section::Limits => limit_row(row),
        Section::Extents => extent_row(row),
        Section::Modules => module_row(row),
        Section::NestedBlocks => blocks_row(row),
        Section::NestedExpressions => nested_row(row),
        Section::Verdicts => verdict_row(row),
        _ => judge_call(section, row),
    }
}

/// The same of the sections of commands and of the outside in memory, and of those below.
fn judge_call(section: Section, row: &mut Row) {
    match section {
        Section::Commands => command_row(row, TopCall::Cython),
        Section::CheckCommands => command_row(row, TopCall::Check),
        Section::Runs => run_row(row),
        Section::Checks => check_row(row),
        Section::Listings => list_row(row),
        Section::ScriptedCommands => scripted_row(row),
        Section::StarvedCommands => starved_row(row),
        Section::Libraries => library_row(row),
        Section::Sources => source_row(row),
        Section::Inputs => input_row(row),
        Section::ScriptedInputs => scripted_input_row(row),
        Section::Sinks => sink_row(row),
        Section::ScriptedOutputs => scripted_output_row(row),
        _ => judge_value(section, row),
    }
}

/// The same of the sections of values.
fn judge_value(section: Section, row: &mut Row) {
    match section {
        Section::Arithmetic => arithmetic_row(row),
        Section::Refusals => refusal_row(row),
        Section::Faults => fault_row(row),
        Section::Orders => order_row(row),
        Section::EarlierFindings => earlier_row(row),
        Section::FirstFindings => first_row(row),
        Section::Sequences => sequence_row(row),
        Section::FunctionNames => name_row(row),
        Section::Statuses => status_row(row),
        _ => row.leave(Unjudged::NoRow),
    }
}
