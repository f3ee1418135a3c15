//! The commands, each with its line, its answer, and what it changes on the desk; and the waits.

ghost use Rattle.std.specs.Prelude.{◌≡◌, ◌<◌, ◌+◌, ◌++◌, ◌^◌, ◌&&◌, ◌==◌, ℕ, All, true, codes, drop, is_none, length, option_map};
ghost use Rattle.std.specs.List.{find};
ghost use Rattle.ft_base.specs.Job.{funcs};
ghost use Rattle.ft_desk.specs.Commands.{IsInShape, command_of};
ghost use Rattle.ft_desk.specs.Declarations.{IsOf};
ghost use Rattle.ft_desk.specs.DeskView.{opened};
ghost use Rattle.ft_desk.specs.Lines.{IsLineIn, lines_of};
ghost use Rattle.ft_io.specs.Pieces.{Puts};
ghost use Rattle.trace_views.specs.LogText.{joined, ran_words};
ghost use Rattle.trace_views.specs.Words.{user_word};
ghost use Rattle.told_items.specs.Fields.{field_text, fields_text, quoted};
ghost use Rattle.told_facts.specs.Commands.{changed_site, command_fields, command_text, controls_text, does, line_answer, line_fields, member, modules_after, new_site, same_target, set_after, wait_text};
ghost use Rattle.told_facts.specs.Lines.{line_in};
ghost use Rattle.told_facts.specs.Values.{list_of, optional, part, parts};

use crate::fields::{comma, put_answer, put_named, put_number_or_null, put_text, put_words};
use crate::lines::CommandLines;
use ft_base::{Answer, FuncNo, Half, Ran, TaskNo, UserNo};
use ft_desk::{Command, Ctl, Desk};
use ft_io::{Pieces, Sink};
use ft_job::ModRow;
use site_set::SiteSet;
use trace_lines::put_number;
use trace_print::Names;
use trace_views::Named;

/// Puts the facts of all commands and waits, of desks on which no command was planned.
pub(crate) fn put_controls<K: Sink>(
    pieces: &mut Pieces,
    sink: &mut K,
    names: &Names<'_>,
    lines: &CommandLines<'_>,
    ctls: &[Ctl],
    before: &mut Desk,
    after: &mut Desk,
)
    requires opened { before.old ≡ opened before.old.declared }
    requires same { after.old ≡ before.old }
    requires declared { IsOf names.now before.old.declared }
    requires named { All (IsLineIn before.old.declared) ctls.now }
    requires lines { lines_of before.old.declared.tasks ctls.now ≡ names.now.ctls }
    ensures { Puts K.holds K.faults (controls_text names.now (line_in lines.now)) sink.old pieces.old sink.new pieces.new }
{
    // Called for its contract alone: a job has no more lines of control than the limit says.
    let _shape = names.job().shape();
    for ctl in ctls {
        match ctl {
            Ctl::Run(command) => {
                let k = before.commands();
                let answer = after.plan(command);
                put_command(
                    pieces, sink, names, k, lines, command, answer, before, after,
                );
                before.plan(command);
            }
            Ctl::Until { task, acts } => put_wait(pieces, sink, names, *task, *acts),
        }
    }
}

/// Puts the fact of a wait.
fn put_wait<K: Sink>(pieces: &mut Pieces, sink: &mut K, names: &Names<'_>, task: TaskNo, acts: u32)
    ensures { Puts K.holds K.faults (wait_text names.now task.0 acts) sink.old pieces.old sink.new pieces.new }
{
    let pid = names.task(task).pid;
    put_named(pieces, sink, b"{\"fact\": \"wait\", \"pid\": ", pid);
    put_named(pieces, sink, b", \"acts\": ", acts);
    pieces.put(sink, b"}\n");
}

/// Puts the fact of a command, from the desk before it and the one after it.
fn put_command<K: Sink>(
    pieces: &mut Pieces,
    sink: &mut K,
    names: &Names<'_>,
    k: u32,
    lines: &CommandLines<'_>,
    command: &Command,
    answer: Answer,
    before: &Desk,
    after: &Desk,
)
    requires number { k + 1 < 2 ^ 32 }
    requires shape { IsInShape after.now.declared command.now }
    requires before { before.now.declared.funcs ≡ funcs names.now }
    requires after { after.now.declared.funcs ≡ funcs names.now }
    ensures { (tasks : ℕ) → Puts K.holds K.faults (command_text names.now k (command_of tasks command.now) (line_in lines.now k) answer before.now.state after.now.state)
        sink.old pieces.old sink.new pieces.new }
{
    pieces.put(sink, b"{\"fact\": \"command\"");
    put_fields(
        pieces, sink, names, k, lines, command, answer, before, after,
    );
    pieces.put(sink, b"}\n");
}

/// Puts its fields.
fn put_fields<K: Sink>(
    pieces: &mut Pieces,
    sink: &mut K,
    names: &Names<'_>,
    k: u32,
    lines: &CommandLines<'_>,
    command: &Command,
    answer: Answer,
    before: &Desk,
    after: &Desk,
)
    requires number { k + 1 < 2 ^ 32 }
    requires shape { IsInShape after.now.declared command.now }
    requires before { before.now.declared.funcs ≡ funcs names.now }
    requires after { after.now.declared.funcs ≡ funcs names.now }
    ensures { (tasks : ℕ) → Puts K.holds K.faults (fields_text (command_fields names.now k (command_of tasks command.now) (line_in lines.now k) answer before.now.state after.now.state))
        sink.old pieces.old sink.new pieces.new }
{
    put_named(pieces, sink, b", \"number\": ", k + 1);
    put_line(pieces, sink, names, lines, k);
    put_number_or_null(pieces, sink, b", \"lane\": ", names.lane(k + 1));
    put_text(pieces, sink, b", \"does\": \"", name_of(command));
    put_user(pieces, sink, names, command.user());
    pieces.put(sink, b", \"answer\": \"");
    put_answer(pieces, sink, names, answer);
    pieces.put(sink, b"\"");
    put_line_answer(pieces, sink, names, k + 1);
    put_edited(pieces, sink, after, command);
    pieces.put(sink, b", \"sites\": [");
    put_sites(pieces, sink, names, before, after);
    pieces.put(sink, b"]");
}

/// Puts the number of a command's line, and its text.
fn put_line<K: Sink>(
    pieces: &mut Pieces,
    sink: &mut K,
    names: &Names<'_>,
    lines: &CommandLines<'_>,
    k: u32,
)
    ensures { Puts K.holds K.faults (fields_text (line_fields names.now (line_in lines.now k))) sink.old pieces.old sink.new pieces.new }
{
    match lines.line(k) {
        Some(line) => {
            put_named(pieces, sink, b", \"line\": ", line.number);
            pieces.put(sink, b", \"text\": \"");
            put_words(pieces, sink, later(line.words.as_slice()));
            pieces.put(sink, b"\"");
        }
        None => {
            pieces.put(sink, b", \"line\": null, \"text\": \"hides");
            put_hidden(pieces, sink, names);
            pieces.put(sink, b"\"");
        }
    }
}

/// All words but the first.
fn later<'b, 'a>(words: &'b [&'a str]) -> &'b [&'a str]
    ensures { result.now ≡ drop 1 words.now }
{
    match words {
        [] => words,
        [_, later @ ..] => later,
    }
}

/// Puts the names of the modules that aren't loaded at first, each after a space.
fn put_hidden<K: Sink>(pieces: &mut Pieces, sink: &mut K, names: &Names<'_>)
    ensures { Puts K.holds K.faults (modules_after names.now names.now.lines.absent) sink.old pieces.old sink.new pieces.new }
{
    let absent = names.job().absent();
    for module in absent {
        pieces.put(sink, b" ");
        pieces.put(sink, names.module(*module).as_bytes());
    }
}

/// What a command does.
fn name_of(command: &Command) -> &'static str
    ensures { (tasks : ℕ) → result.now ≡ does (command_of tasks command.now) }
{
    match command {
        Command::Register(_) => "register",
        Command::Unregister(_) => "unregister",
        Command::Filter(_, _) => "filter",
        Command::Notrace(_, _) => "notrace",
        Command::Pid(_) => "pid",
        Command::NoPid(_) => "nopid",
        Command::Enable(_) => "enable",
        Command::Disable(_) => "disable",
        Command::MaxDepth(_) => "maxdepth",
    }
}

/// Puts the user of a command, or null.
fn put_user<K: Sink>(pieces: &mut Pieces, sink: &mut K, names: &Names<'_>, user: Option<UserNo>)
    ensures { Puts K.holds K.faults (field_text (optional (λ u. quoted (user_word names.now u)) (codes "user") (option_map (λ u. u.0) user)))
        sink.old pieces.old sink.new pieces.new }
{
    match user {
        Some(user) => put_text(pieces, sink, b", \"user\": \"", names.user(user)),
        None => pieces.put(sink, b", \"user\": null"),
    }
}

/// Puts the answer of the line that loads or unloads a module, at its last command, else null.
fn put_line_answer<K: Sink>(pieces: &mut Pieces, sink: &mut K, names: &Names<'_>, k: u32)
    ensures { Puts K.holds K.faults (field_text (optional quoted (codes "line_answer") (line_answer names.now k)))
        sink.old pieces.old sink.new pieces.new }
{
    match answer_at_end(names.job().modules(), k) {
        Some(answer) => {
            pieces.put(sink, b", \"line_answer\": \"");
            put_answer(pieces, sink, names, answer);
            pieces.put(sink, b"\"");
        }
        None => pieces.put(sink, b", \"line_answer\": null"),
    }
}

/// The answer of the load or unload among these whose last command has this number.
fn answer_at_end(rows: &[ModRow], k: u32) -> Option<Answer>
    ensures { result ≡ option_map (λ row. row.answer) (find (λ row. row.last == k) rows.now) }
{
    match rows.iter().find(|row| row.last == k) {
        Some(row) => Some(row.answer),
        None => None,
    }
}

/// Puts the set that a command edits, as it is on this desk, or null.
fn put_edited<K: Sink>(pieces: &mut Pieces, sink: &mut K, now: &Desk, command: &Command)
    requires { IsInShape now.now.declared command.now }
    ensures { (tasks : ℕ) → Puts K.holds K.faults
        (field_text (optional (λ set. list_of (member set) (length set)) (codes "set") (set_after now.now.state (command_of tasks command.now))))
        sink.old pieces.old sink.new pieces.new }
{
    match command {
        Command::Filter(user, _) => {
            put_set(pieces, sink, now.pair(*user).set(Half::Filter));
        }
        Command::Notrace(user, _) => {
            put_set(pieces, sink, now.pair(*user).set(Half::Notrace));
        }
        Command::Register(_)
        | Command::Unregister(_)
        | Command::Pid(_)
        | Command::NoPid(_)
        | Command::Enable(_)
        | Command::Disable(_)
        | Command::MaxDepth(_) => pieces.put(sink, b", \"set\": null"),
    }
}

/// Puts the numbers in a set.
fn put_set<K: Sink>(pieces: &mut Pieces, sink: &mut K, set: &SiteSet)
    ensures { Puts K.holds K.faults (codes ", \"set\": " ++ list_of (member set.now) (length set.now)) sink.old pieces.old sink.new pieces.new }
{
    pieces.put(sink, b", \"set\": [");
    put_members(pieces, sink, set);
    pieces.put(sink, b"]");
}

/// Puts its numbers, with a comma between them.
pub(crate) fn put_members<K: Sink>(pieces: &mut Pieces, sink: &mut K, set: &SiteSet)
    ensures { Puts K.holds K.faults (parts (member set.now) true 0 (length set.now)) sink.old pieces.old sink.new pieces.new }
{
    let mut is_first = true;
    for f in 0..set.size() {
        is_first = put_member(pieces, sink, set, f, is_first);
    }
}

/// Puts a number, if it is in the set. The answer is whether the next one is the first.
fn put_member<K: Sink>(
    pieces: &mut Pieces,
    sink: &mut K,
    set: &SiteSet,
    f: u32,
    is_first: bool,
) -> bool
    requires { f < length set.now }
    ensures puts { Puts K.holds K.faults (part is_first (member set.now f)) sink.old pieces.old sink.new pieces.new }
    ensures first { result ≡ is_first && is_none (member set.now f) }
{
    if !set.contains(f) {
        return is_first;
    }
    pieces.put(sink, comma(is_first).as_bytes());
    put_number(pieces, sink, f);
    false
}

/// Puts the sites that have another target on the second desk.
fn put_sites<K: Sink>(
    pieces: &mut Pieces,
    sink: &mut K,
    names: &Names<'_>,
    before: &Desk,
    after: &Desk,
)
    requires before { before.now.declared.funcs ≡ funcs names.now }
    requires after { after.now.declared.funcs ≡ funcs names.now }
    ensures { Puts K.holds K.faults (parts (changed_site names.now before.now.state after.now.state) true 0 (funcs names.now))
        sink.old pieces.old sink.new pieces.new }
{
    let mut is_first = true;
    for f in 0..after.functions() {
        let was = before.ran(FuncNo(f));
        let is = after.ran(FuncNo(f));
        is_first = put_site(pieces, sink, names, f, was, is, is_first);
    }
}

/// Puts a site, if it has another target. The answer is whether the next one is the first.
fn put_site<K: Sink>(
    pieces: &mut Pieces,
    sink: &mut K,
    names: &Names<'_>,
    f: u32,
    was: Ran,
    is: Ran,
    is_first: bool,
) -> bool
    ensures puts { Puts K.holds K.faults (part is_first (new_site names.now f was is)) sink.old pieces.old sink.new pieces.new }
    ensures first { result ≡ is_first && is_none (new_site names.now f was is) }
{
    if same_target(was, is) {
        return is_first;
    }
    pieces.put(sink, comma(is_first).as_bytes());
    put_named(pieces, sink, b"[", f);
    pieces.put(sink, b", \"");
    put_target(pieces, sink, names, is);
    pieces.put(sink, b"\"]");
    false
}

/// Whether two sites have the same target.
fn same_target(one: Ran, other: Ran) -> bool
    ensures { result ≡ same_target one other }
{
    match (one, other) {
        (Ran::Nop, Ran::Nop) | (Ran::List, Ran::List) => true,
        (Ran::Own(user), Ran::Own(holder)) => user == holder,
        _ => false,
    }
}

/// Puts a site's target.
fn put_target<K: Sink>(pieces: &mut Pieces, sink: &mut K, names: &Names<'_>, target: Ran)
    ensures { Puts K.holds K.faults (joined (ran_words names.now target)) sink.old pieces.old sink.new pieces.new }
{
    match target {
        Ran::Nop => pieces.put(sink, b"nop"),
        Ran::List => pieces.put(sink, b"list"),
        Ran::Own(user) => {
            pieces.put(sink, b"own ");
            pieces.put(sink, names.user(user).as_bytes());
        }
    }
}
