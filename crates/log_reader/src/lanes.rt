//! The lanes that the lines of a log name.

ghost use Rattle.std.specs.Prelude.{◌≡◌, ◌<◌, ◌^◌, length, IfOk};
ghost use Rattle.log_reader.specs.Lanes.{lane_in, lanes_named, named_in};

use crate::line::line_end;
use crate::words::{cut, read_number};
use ft_base::NoMemory;
use std::alloc::Global;

/// The lane that a line names, if it is the line of a command that begins.
#[tactic(auto, unfolding(crate::specs::Lanes::lane_in))]
fn read_lane(line: &str) -> Option<u32>
    ensures { result ≡ lane_in line.now }
{
    let (_place, rest) = cut(line, ' ');
    let (kind, rest) = cut(rest, ' ');
    let (_command, rest) = cut(rest, ' ');
    let (word, lane) = cut(rest, ' ');
    if kind == "begin" && word == "lane" {
        read_number(lane)
    } else {
        None
    }
}

/// The same of a line's bytes. A line that isn't UTF-8 names none.
fn line_lane(line: &[u8]) -> Option<u32>
    ensures { result ≡ named_in line.now }
{
    match str::from_utf8(line) {
        Ok(text) => read_lane(text),
        Err(_) => None,
    }
}

/// The lanes that the lines of a text name, in order. A log of a run with lanes names one for each command that
/// begins, and so tells in which order the commands went ([`laws`](crate::laws)).
pub fn read_lanes(alloc: Global, text: &[u8]) -> Result<Vec<u32>, NoMemory>
    requires { length text.now < 2 ^ 32 }
    ensures { IfOk result (λ named. named.items ≡ lanes_named text.now) }
{
    let mut named = Vec::new(alloc);
    let mut rest = text;
    while let Some(end) = line_end(rest) {
        if let Some(lane) = line_lane(&rest[..end]) {
            if named.push(lane).is_err() {
                return Err(NoMemory);
            }
        }
        rest = &rest[end + 1..];
    }
    Ok(named)
}
