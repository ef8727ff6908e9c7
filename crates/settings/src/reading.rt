// The words of a command line, read with `clap`.
ghost use Rattle.std.specs.Prelude.{◌≡◌, ◌<◌, ◌^◌, ◌↔◌, Some, None, true, false, IfOk, MatchOption, MatchResult};
ghost use Rattle.std.specs.List.{list_any};
ghost use Rattle.std.specs.String.{string_bytes};
ghost use Rattle.clap.specs.Words.{found_of};
ghost use Rattle.settings.specs.Words.{Uses, texts, takes_value, most_of, number_or, is_given, options_of, settings_with, settings_told, settings_after, settings_of_check, settings_of, AreInRange};
ghost use Rattle.settings.specs.Line.{Shows, ShowsWords, is_end_of_options};

use crate::line::argument;
use crate::options::{OptionName, name, options, read_check, read_command};
use crate::parts::{Command, Settings, WordsFault};
use clap::ArgMatches;
use clap::error::ErrorKind;
use std::alloc::Global;

// The number that an option is given, or its default.
fn number(matches: &ArgMatches, words: &[String], option: OptionName, default: u64) -> u64
    ensures { (uses : Uses) → Shows (found_of matches.now) uses → takes_value option ≡ true
        → result ≡ number_or default option uses }
{
    matches
        .get_one::<u64>(name(option, words))
        .unwrap_or(default)
}

// The same of a number that fits 32 bits.
fn short_number(matches: &ArgMatches, words: &[String], option: OptionName, default: u32) -> u32
    ensures { (uses : Uses) → Shows (found_of matches.now) uses → takes_value option ≡ true
        → most_of option < 2 ^ 32 → result ≡ number_or default option uses }
{
    matches
        .get_one::<u32>(name(option, words))
        .unwrap_or(default)
}

fn has_flag(matches: &ArgMatches, words: &[String], option: OptionName) -> bool
    ensures { (uses : Uses) → Shows (found_of matches.now) uses → takes_value option ≡ false
        → result ≡ is_given option uses }
{
    matches.get_flag(name(option, words))
}

// The settings of a command that the matches of its words have, with its default for each option
// that is not there.
fn settings_in(command: Command, matches: &ArgMatches, words: &[String]) -> Settings
    ensures { (uses : Uses) → Shows (found_of matches.now) uses
        → result ≡ settings_with command uses }
{
    Settings {
        command,
        workers: short_number(matches, words, OptionName::Workers, 1),
        fuel: number(matches, words, OptionName::Fuel, 1_000_000),
        rows: short_number(matches, words, OptionName::Rows, 65_536),
        depth: short_number(matches, words, OptionName::Depth, 4_096),
        cache: short_number(matches, words, OptionName::Cache, 0),
        sizes: has_flag(matches, words, OptionName::Sizes),
        log: has_flag(matches, words, OptionName::Log),
        trace: has_flag(matches, words, OptionName::Trace),
        count: short_number(matches, words, OptionName::Count, 0),
        seats: short_number(matches, words, OptionName::Seats, 2),
    }
}

// Whether a word is `--`, at which `clap` ends the options.
fn ends_options(words: &[String]) -> bool
    ensures { result ≡ list_any (λ word. is_end_of_options (string_bytes word)) words.now }
{
    words.iter().any(|word| word.as_str() == "--")
}

// What `clap` reads of the words after a command.
fn read_matches<'a>(
    alloc: Global,
    command: Command,
    words: &'a [String],
) -> Result<ArgMatches<'a>, WordsFault>
    requires { list_any is_end_of_options (texts words.now) ≡ false }
    ensures { MatchResult result
        (λ matches. ShowsWords (options_of command) (texts words.now) (found_of matches))
        (λ fault. fault ≡ WordsFault.Usage → settings_told command (texts words.now) ≡ None) }
{
    let all = options(command);
    let mut line = clap::Command::new(alloc, "rec")
        .no_binary_name(true)
        .disable_help_flag(true);
    for option in all {
        line = line.arg(argument(alloc, *option, name(*option, words)))?;
    }
    match line.try_get_matches_from(words) {
        Ok(matches) => Ok(matches),
        Err(error) => Err(fault_of(error.kind())),
    }
}

// Any fault but want of memory is one of the words.
fn fault_of(kind: ErrorKind) -> WordsFault
    ensures { (result ≡ WordsFault.Memory) ↔ (kind ≡ ErrorKind.OutOfMemory) }
{
    match kind {
        ErrorKind::OutOfMemory => WordsFault::Memory,
        _ => WordsFault::Usage,
    }
}

// The settings of a command with these words after it, each option by itself.
fn read_each(alloc: Global, command: Command, words: &[String]) -> Result<Settings, WordsFault>
    ensures { MatchResult result (λ given. settings_told command (texts words.now) ≡ Some given)
        (λ fault. fault ≡ WordsFault.Usage → settings_told command (texts words.now) ≡ None) }
{
    if ends_options(words) {
        return Err(WordsFault::Usage);
    }
    let matches = read_matches(alloc, command, words)?;
    Ok(settings_in(command, &matches, words))
}

// The settings of a command with these words after it. Sizes stand in the place of the texts that
// traces lead to, and a log where traces stand; of a result that is remembered no steps are known.
fn read_options(alloc: Global, command: Command, words: &[String]) -> Result<Settings, WordsFault>
    ensures { MatchResult result (λ given. settings_after command (texts words.now) ≡ Some given)
        (λ fault. fault ≡ WordsFault.Usage → settings_after command (texts words.now) ≡ None) }
{
    let settings = read_each(alloc, command, words)?;
    if settings.trace && (settings.sizes || settings.log || settings.cache > 0) {
        return Err(WordsFault::Usage);
    }
    Ok(settings)
}

// The check that the words after `check` name, and the words after it.
fn split_check<'a>(words: &'a [String]) -> Option<(Command, &'a [String])>
    ensures { MatchOption result (None ≡ settings_of_check (texts words.now))
        (λ split. settings_after split.0 (texts split.1.now) ≡ settings_of_check
        (texts words.now)) }
{
    match words {
        [what, options @ ..] => Some((read_check(what.as_str())?, options)),
        _ => None,
    }
}

// The command that words name, and the words after it.
fn split_command<'a>(words: &'a [String]) -> Option<(Command, &'a [String])>
    ensures { MatchOption result (None ≡ settings_of (texts words.now))
        (λ split. settings_after split.0 (texts split.1.now) ≡ settings_of (texts words.now)) }
{
    match words {
        [_, command, rest @ ..] if command.as_str() == "check" => split_check(rest),
        [_, command, options @ ..] => Some((read_command(command.as_str())?, options)),
        _ => None,
    }
}

/// Reads the words that the program is started with: its name, a command, and options of that
/// command in any order, with the number of a drill among them. `check` is a command with the word
/// after it, and has no options.
///
/// An option is `--name value` or `--name=value`, and stands at most once; `--sizes`, `--log` and
/// `--trace` have no value, and `--trace` isn't given with another of them, or with a `--cache`
/// above 0. A number is an optional `+` and one or more digits, within the option's range. All
/// other words are `Usage`, among them `--`, `--help` and the beginning of a name. `Memory` may
/// come wherever there is none.
pub fn settings(alloc: Global, words: &[String]) -> Result<Settings, WordsFault>
    ensures settings { MatchResult result (λ given. settings_of (texts words.now) ≡ Some given)
        (λ fault. fault ≡ WordsFault.Usage → settings_of (texts words.now) ≡ None) }
    ensures in_range { IfOk result AreInRange }
{
    match split_command(words) {
        Some((command, options)) => read_options(alloc, command, options),
        None => Err(WordsFault::Usage),
    }
}
