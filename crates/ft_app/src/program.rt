//! The whole of the program but its streams: the top call with the program's arguments as its words.

ghost use Rattle.std.specs.Prelude.{ℕ, List};
ghost use Rattle.ft_words.specs.Language.{Gives};
ghost use Rattle.ft_app.specs.Ends.{Ends};

use crate::top::ft_main;
use ft_io::{OpenGate, Sink, Source, Status};
use std::env;
use std::io::ErrorKind;
use std::rt::Env;
use std::sync::Wait;
use std::thread::Threads;

/// Calls the top call with the arguments after the program's name, and ends as the top call does with
/// some words: no contract sees that these are the arguments. Nothing goes to standard error.
pub fn run_program<R: Env + AllocGlobal + Threads + Wait + Sync, S: Source, K: Sink>(
    rt: &R,
    source: &mut S,
    sink: &mut K,
) -> u8
    ensures { (words : List (List ℕ)) × Ends S.remaining S.faults K.holds K.faults (Gives words)
        result source.old source.new sink.old sink.new }
{
    let alloc = rt.alloc();
    let args = match env::args(rt) {
        Ok(args) => args,
        Err(error) if error.kind() == ErrorKind::OutOfMemory => return Status::NoMemory.code(),
        // An argument that isn't UTF-8 is no word of the language.
        Err(_) => return Status::Language.code(),
    };
    let Ok(owned) = args.skip(1).collect::<Vec<String>>(alloc) else {
        return Status::NoMemory.code();
    };
    let Ok(words) = owned
        .iter()
        .map(|word| word.as_str())
        .collect::<Vec<&str>>(alloc)
    else {
        return Status::NoMemory.code();
    };
    ft_main(rt, alloc, &words, source, sink, &OpenGate)
}
