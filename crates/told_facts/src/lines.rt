//! The lines of a script that say something, and those of its commands.

ghost use Rattle.std.specs.Prelude.{◌≡◌, ◌+◌, ◌<◌, ◌≤◌, ◌^◌, ◌-◌, ℕ, [], length, map, option_map, take, ◌++◌, IfOk, OnOk, IfSome};
ghost use Rattle.ft_base.specs.declared.limits.TheConstants.{INPUT_BYTES};
ghost use Rattle.std.specs.List.{list_any};
ghost use Rattle.ft_job.specs.Plans.{row_of};
ghost use Rattle.told_facts.specs.Lines.{begins_line, hides, is_command, is_lane, is_later, line_in, said_before, said_in, said_of, words_said};

use crate::fields::{put_named, put_words};
use ft_base::NoMemory;
use ft_io::{Pieces, Sink};
use ft_job::{Job, ModRow};
use script_text::{first_line, is_skipped, plain_text, words};
use std::alloc::Global;
use trace_print::Names;
use trace_views::Named;

/// A line that says something.
#[derive(Drop)]
pub(crate) struct ScriptLine<'a> {
    /// Its number in the script, from 1.
    pub(crate) number: u32,
    /// The lane whose commands stand here; 0 if the script has none.
    pub(crate) lane: u32,
    /// Its words.
    pub(crate) words: Vec<&'a str>,
}

/// The lines of a script that say something, and of each command the place of its line among them. None if
/// the command hides modules before the first line.
#[derive(Drop)]
pub(crate) struct CommandLines<'a> {
    pub(crate) lines: Vec<ScriptLine<'a>>,
    pub(crate) places: Vec<Option<u32>>,
}

impl<'a> CommandLines<'a> {
    /// The lines of a script and of its job's commands. The error says that memory ran out.
    pub(crate) fn new(
        alloc: Global,
        script: &'a [u8],
        names: &Names<'_>,
    ) -> Result<CommandLines<'a>, NoMemory>
        requires { length script.now ≤ INPUT_BYTES }
        ensures lines { IfOk result (λ c. map said_of c.lines.items ≡ said_in script.now) }
    {
        let lines = read_lines(alloc, script)?;
        let places = places_of(alloc, lines.as_slice(), names)?;
        Ok(CommandLines { lines, places })
    }

    /// The line of a command, which is numbered from 0.
    pub(crate) fn line(&self, k: u32) -> Option<&ScriptLine<'a>>
        ensures { option_map (λ l. said_of l.now) result ≡ line_in self.now k }
    {
        match self.places.get(k as usize) {
            Some(Some(place)) => self.lines.get(*place as usize),
            Some(None) => None,
            None => None,
        }
    }
}

/// The lines of a script that say something. The error says that memory ran out.
fn read_lines(alloc: Global, script: &[u8]) -> Result<Vec<ScriptLine<'_>>, NoMemory>
    requires { length script.now ≤ INPUT_BYTES }
    ensures lines { IfOk result (λ lines. map said_of lines.items ≡ said_in script.now) }
    ensures few { IfOk result (λ lines. length lines.items ≤ INPUT_BYTES) }
{
    let mut lines = Vec::new(alloc);
    let mut lanes: u32 = 0;
    let mut number: u32 = 0;
    let mut rest = script;
    while !rest.is_empty() {
        let (bytes, _, below) = first_line(rest);
        rest = below;
        number += 1;
        let words = words_said(alloc, bytes)?;
        if is_lane(words.as_slice()) {
            lanes += 1;
        }
        push_line(&mut lines, number, lanes, words)?;
    }
    Ok(lines)
}

/// Adds a line of these words below so many lanes, if it says something. The error says that memory ran out.
fn push_line<'a>(
    lines: &mut Vec<ScriptLine<'a>>,
    number: u32,
    lanes: u32,
    words: Vec<&'a str>,
) -> Result<(), NoMemory>
    ensures added { OnOk result (map said_of lines.new.items ≡ map said_of lines.old.items ++ said_before number lanes (map (λ w. w.now) words.entry.items) []) }
    ensures few { OnOk result (length lines.new.items ≤ length lines.old.items + 1) }
{
    if words.is_empty() {
        return Ok(());
    }
    let line = ScriptLine {
        number,
        lane: lanes.saturating_sub(1),
        words,
    };
    lines.push(line).map_err(|_| NoMemory)
}

/// The words of a line that says something; of any other line none. The error says that memory ran out.
fn words_said(alloc: Global, bytes: &[u8]) -> Result<Vec<&str>, NoMemory>
    ensures { IfOk result (λ words. map (λ w. w.now) words.items ≡ words_said bytes.now) }
{
    if is_skipped(bytes) {
        return Ok(Vec::new(alloc));
    }
    match plain_text(bytes) {
        Some(text) => words(alloc, text).map_err(|_| NoMemory),
        None => Ok(Vec::new(alloc)),
    }
}

/// Whether a line of these words begins a lane.
fn is_lane(words: &[&str]) -> bool
    ensures { result ≡ is_lane (map (λ w. w.now) words.now) }
{
    match words {
        [key, ..] => *key == "lane",
        _ => false,
    }
}

/// Whether a line of these words is one of control that isn't a wait.
fn is_command(words: &[&str]) -> bool
    ensures { result ≡ is_command (map (λ w. w.now) words.now) }
{
    match words {
        [key, next, ..] => *key == "ctl" && *next != "until",
        _ => false,
    }
}

/// The place of each command's line among these, or none.
fn places_of(
    alloc: Global,
    lines: &[ScriptLine<'_>],
    names: &Names<'_>,
) -> Result<Vec<Option<u32>>, NoMemory>
    requires { length lines.now ≤ INPUT_BYTES }
{
    let mut left = command_places(alloc, lines)?;
    let mut places = Vec::new(alloc);
    let mut at = None;
    // Called for its contract alone: a job has no more lines of control than the limit says.
    let _shape = names.job().shape();
    for k in 0..names.job().ctls().len() as u32 {
        if begins_line(names.job(), k + 1) {
            let lane = names.lane(k + 1).unwrap_or(0);
            if let Some(place) = take_first(lines, lane, &mut left) {
                at = Some(place);
            }
        }
        places.push(at).map_err(|_| NoMemory)?;
    }
    Ok(places)
}

/// The places of the lines of commands among these.
fn command_places(alloc: Global, lines: &[ScriptLine<'_>]) -> Result<Vec<u32>, NoMemory>
    requires { length lines.now ≤ INPUT_BYTES }
{
    let mut places = Vec::new(alloc);
    for (place, line) in lines.iter().enumerate() {
        if is_command(line.words.as_slice()) {
            places.push(place as u32).map_err(|_| NoMemory)?;
        }
    }
    Ok(places)
}

/// Whether the command of this number, from 1, is the first of a line of control.
fn begins_line(job: &Job, k: u32) -> bool
    ensures { result ≡ begins_line job.now k }
{
    k > hides(job) && !is_later_in(job.modules(), k)
}

/// Whether the command of this number is one of these loads and unloads, and not its first.
fn is_later_in(rows: &[ModRow], k: u32) -> bool
    ensures { result ≡ list_any (λ row. is_later k (row_of row)) rows.now }
{
    rows.iter().any(|row| is_later(row, k))
}

/// Whether the command of this number is one of a load or an unload, and not the first.
fn is_later(row: &ModRow, k: u32) -> bool
    ensures { result ≡ is_later k (row_of row.now) }
{
    row.first < k && k <= row.last
}

/// How many commands hide modules before the first line.
fn hides(job: &Job) -> u32
    ensures { result ≡ hides job.now }
{
    if job.absent().is_empty() {
        0
    } else {
        job.users()
    }
}

/// Takes the first line of a lane out of those that are left, by their places.
fn take_first(lines: &[ScriptLine<'_>], lane: u32, left: &mut Vec<u32>) -> Option<u32> {
    let at = first_place(lines, lane, left.as_slice())?;
    Some(left.remove(at))
}

/// Which of these places is the first of a lane's lines.
fn first_place(lines: &[ScriptLine<'_>], lane: u32, left: &[u32]) -> Option<usize>
    ensures { IfSome result (λ i. i < length left.now) }
{
    left.iter().position(|place| lane_of(lines, *place) == lane)
}

/// The lane of the line at a place. Lane 0 if there is none.
fn lane_of(lines: &[ScriptLine<'_>], place: u32) -> u32 {
    match lines.get(place as usize) {
        Some(line) => line.lane,
        None => 0,
    }
}

/// How many lanes there are.
pub(crate) fn lanes_in(lines: &[ScriptLine<'_>]) -> u32 {
    let mut lanes: u32 = 0;
    for line in lines {
        if is_lane(line.words.as_slice()) {
            lanes = lanes.saturating_add(1);
        }
    }
    lanes
}

/// Puts the fact of each line.
pub(crate) fn put_lines<K: Sink>(pieces: &mut Pieces, sink: &mut K, lines: &[ScriptLine<'_>]) {
    for line in lines {
        put_named(
            pieces,
            sink,
            b"{\"fact\": \"line\", \"line\": ",
            line.number,
        );
        pieces.put(sink, b", \"text\": \"");
        put_words(pieces, sink, line.words.as_slice());
        pieces.put(sink, b"\"}\n");
    }
}
