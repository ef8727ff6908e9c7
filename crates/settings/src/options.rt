// Commands and options by their names, and the numbers that options take.
ghost use Rattle.std.specs.Prelude.{◌≡◌};
ghost use Rattle.settings.specs.Words.{command_text, command_named, check_named, options_of, stands_alone, takes_value, name_of, least_of, most_of};

use crate::parts::Command;

/// An option, or a further word.
#[derive(Clone, Copy, Debug, PartialEq, Eq)]
pub enum OptionName {
    Workers,
    Fuel,
    Rows,
    Depth,
    Cache,
    Sizes,
    Log,
    Trace,
    /// The number of a drill, which stands without a name.
    Count,
    Seats,
}

// The word that names a command; for a check, the word after `check`.
fn command_word(command: Command) -> &'static str
    ensures { result.now ≡ command_text command }
{
    match command {
        Command::Rewrite => "rewrite",
        Command::Drill => "drill",
        Command::Schedule => "schedule",
        Command::Terms => "terms",
        Command::Pack => "pack",
        Command::Unpack => "unpack",
        Command::Outermost => "outermost",
        Command::CheckLog => "log",
        Command::CheckTrace => "trace",
    }
}

/// The command that a word names.
#[tactic(auto, unfolding(crate::specs::Words::command_named))]
pub fn read_command(word: &str) -> Option<Command>
    ensures { result ≡ command_named word.now }
{
    [
        Command::Rewrite,
        Command::Drill,
        Command::Schedule,
        Command::Terms,
        Command::Pack,
        Command::Unpack,
        Command::Outermost,
    ]
    .iter()
    .copied()
    .find(|command| command_word(*command) == word)
}

/// The check that a word after `check` names.
#[tactic(auto, unfolding(crate::specs::Words::check_named))]
pub fn read_check(word: &str) -> Option<Command>
    ensures { result ≡ check_named word.now }
{
    [Command::CheckLog, Command::CheckTrace]
        .iter()
        .copied()
        .find(|command| command_word(*command) == word)
}

/// The options of a command, with its further word.
pub fn options(command: Command) -> &'static [OptionName]
    ensures { result.now ≡ options_of command }
{
    match command {
        Command::Rewrite => &[
            OptionName::Workers,
            OptionName::Fuel,
            OptionName::Rows,
            OptionName::Depth,
            OptionName::Cache,
            OptionName::Sizes,
            OptionName::Log,
            OptionName::Trace,
        ],
        Command::Drill => &[
            OptionName::Workers,
            OptionName::Fuel,
            OptionName::Rows,
            OptionName::Depth,
            OptionName::Cache,
            OptionName::Log,
            OptionName::Count,
        ],
        Command::Schedule => &[OptionName::Seats],
        Command::Terms | Command::Pack => &[OptionName::Rows],
        Command::Unpack | Command::CheckLog | Command::CheckTrace => &[],
        Command::Outermost => &[
            OptionName::Workers,
            OptionName::Fuel,
            OptionName::Rows,
            OptionName::Depth,
            OptionName::Sizes,
            OptionName::Log,
        ],
    }
}

/// Whether it is a further word, before which no name stands.
pub fn stands_alone(option: OptionName) -> bool
    ensures { result ≡ stands_alone option }
{
    matches!(option, OptionName::Count)
}

/// Whether an option has a value.
pub fn has_value(option: OptionName) -> bool
    ensures { result ≡ takes_value option }
{
    !matches!(
        option,
        OptionName::Sizes | OptionName::Log | OptionName::Trace
    )
}

/// The name of an option, behind two hyphens in its word. It is lent for as long as the words are,
/// since a command line and its words have one lifetime.
pub fn name<'a>(option: OptionName, _words: &'a [String]) -> &'a str
    ensures { result.now ≡ name_of option }
{
    match option {
        OptionName::Workers => "workers",
        OptionName::Fuel => "fuel",
        OptionName::Rows => "rows",
        OptionName::Depth => "depth",
        OptionName::Cache => "cache",
        OptionName::Sizes => "sizes",
        OptionName::Log => "log",
        OptionName::Trace => "trace",
        OptionName::Count => "count",
        OptionName::Seats => "seats",
    }
}

/// The least number that an option takes.
pub fn least(option: OptionName) -> u64
    ensures { result ≡ least_of option }
{
    match option {
        OptionName::Fuel
        | OptionName::Cache
        | OptionName::Sizes
        | OptionName::Log
        | OptionName::Trace => 0,
        OptionName::Workers
        | OptionName::Rows
        | OptionName::Depth
        | OptionName::Count
        | OptionName::Seats => 1,
    }
}

/// The greatest number that an option takes.
pub fn most(option: OptionName) -> u64
    ensures { result ≡ most_of option }
{
    match option {
        OptionName::Workers => 16,
        OptionName::Fuel => 1_000_000_000,
        OptionName::Rows => 262_144,
        OptionName::Depth => 65_536,
        OptionName::Cache => 65_535,
        OptionName::Sizes | OptionName::Log | OptionName::Trace => 0,
        OptionName::Count => 65_535,
        OptionName::Seats => 16,
    }
}
