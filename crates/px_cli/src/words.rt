ghost use Rattle.std.specs.Prelude.{◌≡◌, map, string_bytes, MatchOption, ℕ, List};
ghost use Rattle.px_cli.specs.Words.{Asks, command_word};

/// A command that is built; each takes a file.
#[derive(Clone, Copy)]
pub enum Command {
    /// Tells whether a module is accepted.
    Check,
    /// Lists the code of a module.
    List,
    /// Runs a module.
    Run,
}

/// The word of a command.
fn word_of(command: Command) -> &'static str
    ensures { result.now ≡ command_word command }
{
    match command {
        Command::Check => "check",
        Command::List => "list",
        Command::Run => "run",
    }
}

/// The file on which the words ask for a command, or `None` where they ask for something else or for nothing.
pub fn file_for(command: Command, words: &[String]) -> Option<&str>
    ensures { MatchOption result
        ((file : List ℕ) → Asks command (map string_bytes words.now) file → ⊥)
        (λ file. Asks command (map string_bytes words.now) file.now) }
{
    let [first, file] = words else {
        return None;
    };
    if first.as_str() != word_of(command) || file.is_empty() || file.as_bytes()[0] == b'-' {
        return None;
    }
    Some(file.as_str())
}
