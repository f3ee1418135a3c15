//! The whole of the program but its streams: the top call with the number of the program's arguments.

ghost use Rattle.std.specs.Prelude.{ℕ};
ghost use Rattle.judge_app.specs.Ends.{EndsWith};

use crate::app::judge_main;
use ft_io::{Sink, Source, Status};
use std::env;
use std::io::ErrorKind;
use std::rt::Env;

/// Calls the top call with the number of arguments after the program's name, and ends as the top call
/// does with some number of words: no contract sees that it is this one. Nothing goes to standard error.
pub fn run_program<R: Env + AllocGlobal, S: Source, K: Sink>(
    rt: &R,
    source: &mut S,
    sink: &mut K,
) -> u8
    ensures { (words : ℕ) × EndsWith S.remaining S.faults K.holds K.faults words
        result source.old source.new sink.old sink.new }
{
    let alloc = rt.alloc();
    let words = match env::args(rt) {
        Ok(args) => args.skip(1).count(),
        Err(error) if error.kind() == ErrorKind::OutOfMemory => return Status::NoMemory.code(),
        // An argument that isn't UTF-8 is a word, too.
        Err(_) => 1,
    };
    judge_main(alloc, words, source, sink)
}
