// The arguments of a command line, as `clap` is told them.
ghost use Rattle.std.specs.Prelude.{◌≡◌, true, false};
ghost use Rattle.clap.specs.Words.{rule_of};
ghost use Rattle.settings.specs.Words.{name_of};
ghost use Rattle.settings.specs.Line.{argument_for, argument_of};

use crate::options::{OptionName, has_value, least, most, stands_alone};
use clap::builder::ValueParser;
use clap::{Arg, ArgAction};
use std::alloc::Global;

// A flag.
fn flag<'a>(alloc: Global, option: OptionName, name: &'a str) -> Arg<'a>
    requires { name.now ≡ name_of option }
    ensures rule { rule_of result ≡ argument_for option false false }
    ensures local { result.global ≡ false }
{
    Arg::new(alloc, name).long(name).action(ArgAction::SetTrue)
}

// An option with a value.
fn valued<'a>(alloc: Global, option: OptionName, name: &'a str) -> Arg<'a>
    requires { name.now ≡ name_of option }
    ensures rule { rule_of result ≡ argument_for option true false }
    ensures local { result.global ≡ false }
{
    Arg::new(alloc, name)
        .long(name)
        .action(ArgAction::Set)
        .value_parser(ValueParser::unsigned(least(option), most(option)))
}

// A further word.
fn further<'a>(alloc: Global, option: OptionName, name: &'a str) -> Arg<'a>
    requires { name.now ≡ name_of option }
    ensures rule { rule_of result ≡ argument_for option true true }
    ensures local { result.global ≡ false }
{
    Arg::new(alloc, name)
        .index(1)
        .required(true)
        .action(ArgAction::Set)
        .value_parser(ValueParser::unsigned(least(option), most(option)))
}

/// The argument of an option or of a further word, with its name.
pub fn argument<'a>(alloc: Global, option: OptionName, name: &'a str) -> Arg<'a>
    requires { name.now ≡ name_of option }
    ensures rule { rule_of result ≡ argument_of option }
    ensures local { result.global ≡ false }
{
    if stands_alone(option) {
        further(alloc, option, name)
    } else if has_value(option) {
        valued(alloc, option, name)
    } else {
        flag(alloc, option, name)
    }
}
