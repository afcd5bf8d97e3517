ghost use Rattle.px_exprs.specs.Laws.{
  ExpressionsAreUnique,
  MarksAreOfTokens,
  NamesAreExpressions,
  NodeNumbersAreDistinct,
  ReadingsAreUnique,
};

/// Tokens are one expression at most, with one tree and one nesting.
pub fn expressions_are_unique()
    ensures { ExpressionsAreUnique }
{}

/// Each identifier is an expression, whatever it means in a type or in the head of a function.
pub fn names_are_expressions()
    ensures { NamesAreExpressions }
{}

/// The numbers of the nodes of an expression are the indices of some of its tokens, each once.
pub fn node_numbers_are_distinct()
    ensures { NodeNumbersAreDistinct }
{}

/// From an index on tokens are read in one way at most: as one expression, or with one refusal.
pub fn readings_are_unique()
    ensures { ReadingsAreUnique }
{}

/// The places, names, numbers and strings of an expression are those of its tokens.
pub fn marks_are_of_tokens()
    ensures { MarksAreOfTokens }
{}
