ghost use Rattle.px_parser.specs.Laws.{
  ModuleNumbersAreDistinct,
  ModulesAreUnique,
  ParsingIsUnique,
  RefusalsAreAtTokens,
  TextsAreListed,
};

/// Tokens are one module at most, with one tree, whatever nesting is allowed.
pub fn modules_are_unique()
    ensures { ModulesAreUnique }
{}

/// Tokens are parsed in one way at most: as one module, or with one refusal.
pub fn parsing_is_unique()
    ensures { ParsingIsUnique }
{}

/// A module that is refused is so with E5, E6 or E27, at one of its tokens.
pub fn refusals_are_at_tokens()
    ensures { RefusalsAreAtTokens }
{}

/// The tokens of a text are what the reader of modules needs.
pub fn texts_are_listed()
    ensures { TextsAreListed }
{}

/// The numbers of the nodes of a module are the indices of some of its tokens, each once.
pub fn module_numbers_are_distinct()
    ensures { ModuleNumbersAreDistinct }
{}
