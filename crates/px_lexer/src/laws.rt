ghost use Rattle.px_lexer.specs.Laws.{TokensAreUnique, TokensAreThere, TokensOrRefusal, TokensAreLongest};

/// A text has at most one list of tokens, and one list of leading comment lines.
pub fn tokens_are_unique()
    ensures { TokensAreUnique }
{}

/// A text has tokens, or a first rule that it breaks, and tokens exactly where it breaks none.
pub fn tokens_are_there()
    ensures exact { TokensAreThere }
    ensures first { TokensOrRefusal }
{}

/// Each token that is spelled is the longest front of the text from its place on that is a word, a number, a sign or a
/// closed string, of whatever form.
pub fn tokens_are_longest()
    ensures { TokensAreLongest }
{}
