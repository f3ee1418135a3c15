//! How the fields of an item are put.

ghost use Rattle.std.specs.Prelude.{◌≡◌, ◌++◌, ◌&&◌, codes, not, true};
ghost use Rattle.std.specs.Fmt.{decimal};
ghost use Rattle.ft_io.specs.Pieces.{Puts};
ghost use Rattle.told_items.specs.Open.{is_owed_to};
ghost use Rattle.told_items.specs.Fields.{field_text, fields_text};
ghost use Rattle.told_items.specs.ItemText.{answer_fields, call_fields, call_with, caller_field, calls_after, comma, entered_fields, item_fields, kind_word, lane_fields, lost_fields, open_fields, open_text, place_text, places, ran_fields, user_fields, visit_with};

use crate::told::{Opened, Owed, Told};
use ft_base::{Answer, CallNo, Ctx, FuncNo, Item, Kind, Ran, UserNo};
use ft_io::{Pieces, Sink};
use trace_lines::{context_name, put_call, put_number, reason_name};
use trace_views::Named;

/// Puts what stands before a text, up to its quote, and the text.
#[inline(always)]
fn put_text<K: Sink>(pieces: &mut Pieces, sink: &mut K, front: &[u8], text: &str)
    ensures { Puts K.holds K.faults (front.now ++ (text.now ++ codes "\"")) sink.old pieces.old sink.new pieces.new }
{
    pieces.put(sink, front);
    pieces.put(sink, text.as_bytes());
    pieces.put(sink, b"\"");
}

/// Puts what stands before a number, and the number.
#[inline(always)]
fn put_named<K: Sink>(pieces: &mut Pieces, sink: &mut K, front: &[u8], n: u32)
    ensures { Puts K.holds K.faults (front.now ++ decimal n) sink.old pieces.old sink.new pieces.new }
{
    pieces.put(sink, front);
    put_number(pieces, sink, n);
}

/// Puts a call, its task and the task's CPU.
fn put_called<K: Sink, N: Named>(pieces: &mut Pieces, sink: &mut K, names: &N, call: CallNo)
    ensures { Puts K.holds K.faults (fields_text (call_fields (N.job names.now) call))
        sink.old pieces.old sink.new pieces.new }
{
    let task = names.task(call.task);
    put_named(pieces, sink, b", \"pid\": ", task.pid);
    put_named(pieces, sink, b", \"cpu\": ", task.cpu);
    pieces.put(sink, b", \"call\": \"");
    put_call(pieces, sink, names, call);
    pieces.put(sink, b"\"");
}

/// Puts a call's context and function.
fn put_opened<K: Sink, N: Named>(
    pieces: &mut Pieces,
    sink: &mut K,
    names: &N,
    ctx: Ctx,
    func: FuncNo,
)
    ensures { Puts K.holds K.faults (fields_text (entered_fields (N.job names.now) ctx func.0))
        sink.old pieces.old sink.new pieces.new }
{
    put_text(pieces, sink, b", \"context\": \"", context_name(ctx));
    put_text(pieces, sink, b", \"function\": \"", names.function(func));
}

/// Puts the name of an item that an open call has, and the call.
fn put_told_call<K: Sink, N: Named>(
    pieces: &mut Pieces,
    sink: &mut K,
    names: &N,
    told: &Told,
    front: &[u8],
    call: CallNo,
)
    ensures { Puts K.holds K.faults (front.now ++ fields_text (call_with (N.job names.now) told.now.calls.items call))
        sink.old pieces.old sink.new pieces.new }
{
    pieces.put(sink, front);
    put_called(pieces, sink, names, call);
    if let Some(opened) = told.opened(call) {
        put_opened(pieces, sink, names, opened.ctx, opened.func);
    }
}

fn kind_name(kind: Kind) -> &'static str
    ensures { result.now ≡ kind_word kind }
{
    match kind {
        Kind::Function => "function",
        Kind::Graph => "graph",
        Kind::Fprobe { .. } => "fprobe",
        Kind::Profile => "profile",
    }
}

/// Puts a user and its kind.
fn put_user<K: Sink, N: Named>(pieces: &mut Pieces, sink: &mut K, names: &N, user: UserNo)
    ensures { Puts K.holds K.faults (fields_text (user_fields (N.job names.now) user.0))
        sink.old pieces.old sink.new pieces.new }
{
    put_text(pieces, sink, b", \"user\": \"", names.user(user));
    put_text(
        pieces,
        sink,
        b", \"user_kind\": \"",
        kind_name(names.kind(user)),
    );
}

/// Puts the name of an item that a user has in an open call, the call and the user.
fn put_visit<K: Sink, N: Named>(
    pieces: &mut Pieces,
    sink: &mut K,
    names: &N,
    told: &Told,
    front: &[u8],
    call: CallNo,
    user: UserNo,
)
    ensures { Puts K.holds K.faults (front.now ++ fields_text (visit_with (N.job names.now) told.now.calls.items call user.0))
        sink.old pieces.old sink.new pieces.new }
{
    put_told_call(pieces, sink, names, told, front, call);
    put_user(pieces, sink, names, user);
}

/// Puts the enclosing call.
fn put_caller<K: Sink, N: Named>(
    pieces: &mut Pieces,
    sink: &mut K,
    names: &N,
    caller: Option<CallNo>,
)
    ensures { Puts K.holds K.faults (field_text (caller_field (N.job names.now) caller))
        sink.old pieces.old sink.new pieces.new }
{
    match caller {
        None => pieces.put(sink, b", \"caller\": null"),
        Some(call) => {
            pieces.put(sink, b", \"caller\": \"");
            put_call(pieces, sink, names, call);
            pieces.put(sink, b"\"");
        }
    }
}

/// Puts the lane of a command, if it has one.
fn put_lane<K: Sink>(pieces: &mut Pieces, sink: &mut K, lane: Option<u32>)
    ensures { Puts K.holds K.faults (fields_text (lane_fields lane)) sink.old pieces.old sink.new pieces.new }
{
    if let Some(lane) = lane {
        put_named(pieces, sink, b", \"lane\": ", lane);
    }
}

/// Puts the answer of a command.
fn put_answer<K: Sink, N: Named>(pieces: &mut Pieces, sink: &mut K, names: &N, answer: Answer)
    ensures { Puts K.holds K.faults (fields_text (answer_fields (N.job names.now) answer))
        sink.old pieces.old sink.new pieces.new }
{
    match answer {
        Answer::Accepted => pieces.put(sink, b", \"answer\": \"ok\""),
        Answer::Already => pieces.put(sink, b", \"answer\": \"already\""),
        Answer::NotThere => pieces.put(sink, b", \"answer\": \"not-there\""),
        Answer::Invalid => pieces.put(sink, b", \"answer\": \"invalid\""),
        Answer::NoMatch => pieces.put(sink, b", \"answer\": \"no-match\""),
        Answer::Busy { func, holder } => {
            pieces.put(sink, b", \"answer\": \"busy\"");
            put_text(pieces, sink, b", \"function\": \"", names.function(func));
            put_text(pieces, sink, b", \"user\": \"", names.user(holder));
        }
    }
}

/// Puts what was fetched at a call site.
fn put_ran<K: Sink, N: Named>(pieces: &mut Pieces, sink: &mut K, names: &N, ran: Ran)
    ensures { Puts K.holds K.faults (fields_text (ran_fields (N.job names.now) ran))
        sink.old pieces.old sink.new pieces.new }
{
    match ran {
        Ran::Nop => pieces.put(sink, b", \"ran\": \"nop\""),
        Ran::List => pieces.put(sink, b", \"ran\": \"list\""),
        Ran::Own(user) => {
            pieces.put(sink, b", \"ran\": \"own\"");
            put_user(pieces, sink, names, user);
        }
    }
}

/// Puts the places of the entry callbacks whose exits are owed to a call.
fn put_places<K: Sink>(pieces: &mut Pieces, sink: &mut K, exits: &[Owed], call: CallNo)
    ensures { Puts K.holds K.faults (places call exits.now) sink.old pieces.old sink.new pieces.new }
{
    pieces.put(sink, b"[");
    let mut is_first = true;
    for owed in exits {
        is_first = put_place(pieces, sink, *owed, call, is_first);
    }
    pieces.put(sink, b"]");
}

/// Puts the place of an owed exit's entry callback, if it is owed to a call. The answer is whether the next
/// one is the first.
fn put_place<K: Sink>(
    pieces: &mut Pieces,
    sink: &mut K,
    owed: Owed,
    call: CallNo,
    is_first: bool,
) -> bool
    ensures puts { Puts K.holds K.faults (place_text is_first call owed) sink.old pieces.old sink.new pieces.new }
    ensures first { result ≡ is_first && not (is_owed_to call owed) }
{
    if !owed.is_owed_to(call) {
        return is_first;
    }
    pieces.put(sink, comma(is_first).as_bytes());
    put_number(pieces, sink, owed.place);
    false
}

/// What stands before an element of a list.
fn comma(is_first: bool) -> &'static str
    ensures { result.now ≡ comma is_first }
{
    if is_first { "" } else { ", " }
}

/// Puts the fields of an item.
pub(crate) fn put_fields<K: Sink, N: Named>(
    pieces: &mut Pieces,
    sink: &mut K,
    names: &N,
    told: &Told,
    item: &Item,
)
    ensures { Puts K.holds K.faults (fields_text (item_fields (N.job names.now) told.now.calls.items told.now.exits.items item.now))
        sink.old pieces.old sink.new pieces.new }
{
    match *item {
        Item::Begin { k } => {
            put_named(pieces, sink, b", \"item\": \"begin\", \"command\": ", k);
            put_lane(pieces, sink, names.lane(k));
        }
        Item::Return { k, answer } => {
            put_named(pieces, sink, b", \"item\": \"return\", \"command\": ", k);
            put_lane(pieces, sink, names.lane(k));
            put_answer(pieces, sink, names, answer);
        }
        Item::Enter {
            call,
            ctx,
            func,
            caller,
        } => {
            pieces.put(sink, b", \"item\": \"enter\"");
            put_called(pieces, sink, names, call);
            put_opened(pieces, sink, names, ctx, func);
            put_caller(pieces, sink, names, caller);
        }
        Item::Back { call, user } => put_visit(
            pieces,
            sink,
            names,
            told,
            b", \"item\": \"back\"",
            call,
            user,
        ),
        Item::BackEnd { call, user } => put_visit(
            pieces,
            sink,
            names,
            told,
            b", \"item\": \"back-end\"",
            call,
            user,
        ),
        Item::Refuse { call, user, reason } => {
            put_visit(
                pieces,
                sink,
                names,
                told,
                b", \"item\": \"refuse\"",
                call,
                user,
            );
            put_text(pieces, sink, b", \"reason\": \"", reason_name(reason));
        }
        Item::Miss { call, user } => put_visit(
            pieces,
            sink,
            names,
            told,
            b", \"item\": \"miss\"",
            call,
            user,
        ),
        Item::Body { call, func, ran } => {
            put_told_call(pieces, sink, names, told, b", \"item\": \"body\"", call);
            put_text(pieces, sink, b", \"body\": \"", names.function(func));
            put_ran(pieces, sink, names, ran);
        }
        Item::Leave { call } => put_told_call(
            pieces,
            sink,
            names,
            told,
            b", \"item\": \"leave\"",
            call,
        ),
        Item::Exit { call, user, entry } => {
            put_visit(
                pieces,
                sink,
                names,
                told,
                b", \"item\": \"exit\"",
                call,
                user,
            );
            put_named(pieces, sink, b", \"entry\": ", entry);
        }
        Item::ExitEnd { call, user } => put_visit(
            pieces,
            sink,
            names,
            told,
            b", \"item\": \"exit-end\"",
            call,
            user,
        ),
        Item::Ret { call, to } => {
            put_told_call(pieces, sink, names, told, b", \"item\": \"ret\"", call);
            put_caller(pieces, sink, names, to);
            put_lost(pieces, sink, told, call);
        }
    }
}

/// Puts what the return of a call leaves out, if it leaves out something.
fn put_lost<K: Sink>(pieces: &mut Pieces, sink: &mut K, told: &Told, call: CallNo)
    ensures { Puts K.holds K.faults (fields_text (lost_fields call told.now.exits.items))
        sink.old pieces.old sink.new pieces.new }
{
    if told.owes_to(call) {
        pieces.put(sink, b", \"lost\": ");
        put_places(pieces, sink, told.exits.as_slice(), call);
    }
}

/// Puts the calls that are open, each with what is owed to it, if there are some.
pub(crate) fn put_open<K: Sink, N: Named>(pieces: &mut Pieces, sink: &mut K, names: &N, told: &Told)
    ensures { Puts K.holds K.faults (fields_text (open_fields (N.job names.now) told.now.calls.items told.now.exits.items))
        sink.old pieces.old sink.new pieces.new }
{
    let calls = told.calls.as_slice();
    if calls.is_empty() {
        return;
    }
    pieces.put(sink, b", \"open\": [");
    put_open_calls(pieces, sink, names, calls, told.exits.as_slice());
    pieces.put(sink, b"]");
}

/// Puts them.
fn put_open_calls<K: Sink, N: Named>(
    pieces: &mut Pieces,
    sink: &mut K,
    names: &N,
    calls: &[Opened],
    exits: &[Owed],
)
    ensures { Puts K.holds K.faults (calls_after (N.job names.now) exits.now true calls.now)
        sink.old pieces.old sink.new pieces.new }
{
    let mut is_first = true;
    for opened in calls {
        pieces.put(sink, comma(is_first).as_bytes());
        put_one_open(pieces, sink, names, exits, opened.call);
        is_first = false;
    }
}

/// Puts an open call with what is owed to it.
fn put_one_open<K: Sink, N: Named>(
    pieces: &mut Pieces,
    sink: &mut K,
    names: &N,
    exits: &[Owed],
    call: CallNo,
)
    ensures { Puts K.holds K.faults (open_text (N.job names.now) exits.now call)
        sink.old pieces.old sink.new pieces.new }
{
    pieces.put(sink, b"{\"call\": \"");
    put_call(pieces, sink, names, call);
    pieces.put(sink, b"\", \"owed\": ");
    put_places(pieces, sink, exits, call);
    pieces.put(sink, b"}");
}
