//! The parser: what it is told of the command line, and what it finds in words.

ghost use Rattle.std.specs.Prelude.{◌≡◌, IfOk, map, false, codes};
ghost use Rattle.std.specs.Option.{option_copied};
ghost use Rattle.clap.specs.Words.{app_of, first_value, found_of};
ghost use Rattle.ft_words.specs.Command.{app, is_taken, value_in};

use crate::order::WordsFault;
use clap::error::ErrorKind;
use clap::{Arg, ArgMatches, Command};
use std::alloc::{AllocError, Global};

/// The command line, as the parser is told it.
pub fn command<'a>(alloc: Global) -> Result<Command<'a>, AllocError>
    ensures { IfOk result (λ c. app_of c ≡ app) }
{
    let mode = Arg::new(alloc, "mode").required(true);
    let print = Arg::new(alloc, "print").long("print");
    let seed = Arg::new(alloc, "seed").long("seed");
    Command::new(alloc, "ftcore")
        .no_binary_name(true)
        .disable_help_flag(true)
        .arg(mode)?
        .arg(print)?
        .arg(seed)
}

/// What the parser found in the words.
#[derive(Clone, Copy)]
pub struct Found<'a> {
    /// The mode.
    pub mode: Option<&'a str>,
    /// The value of `--print`.
    pub print: Option<&'a str>,
    /// The value of `--seed`.
    pub seed: Option<&'a str>,
}

/// What the parser's matches have.
fn found_in<'a>(matches: &ArgMatches<'a>) -> Found<'a>
    ensures mode { option_copied result.mode ≡ first_value (found_of matches.entry.now) (codes "mode") }
    ensures print { option_copied result.print ≡ first_value (found_of matches.entry.now) (codes "print") }
    ensures seed { option_copied result.seed ≡ first_value (found_of matches.entry.now) (codes "seed") }
{
    Found {
        mode: matches.get_str("mode"),
        print: matches.get_str("print"),
        seed: matches.get_str("seed"),
    }
}

/// What the parser finds in the words. `Language` comes only for words that it doesn't take.
pub fn find<'a>(command: Command<'a>, words: &'a [&'a str]) -> Result<Found<'a>, WordsFault>
    requires { app_of command ≡ app }
    ensures mode { IfOk result (λ f. option_copied f.mode
        ≡ value_in (codes "mode") (map (λ w. w.now) words.entry.now)) }
    ensures print { IfOk result (λ f. option_copied f.print
        ≡ value_in (codes "print") (map (λ w. w.now) words.entry.now)) }
    ensures seed { IfOk result (λ f. option_copied f.seed
        ≡ value_in (codes "seed") (map (λ w. w.now) words.entry.now)) }
    ensures language { result ≡ Err WordsFault.Language
        → is_taken (map (λ w. w.now) words.entry.now) ≡ false }
{
    match command.try_get_matches_from(words) {
        Ok(matches) => Ok(found_in(&matches)),
        Err(error) => match error.kind() {
            ErrorKind::OutOfMemory => Err(WordsFault::NoMemory),
            _ => Err(WordsFault::Language),
        },
    }
}
