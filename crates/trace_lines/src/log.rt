//! The text of a history, log: a line for each item.

ghost use Rattle.std.specs.Prelude.{◌≡◌, [], ◌∷◌, ◌++◌, codes};
ghost use Rattle.ft_io.specs.Pieces.{Puts};
ghost use Rattle.std.specs.Fmt.{decimal};
ghost use Rattle.trace_views.specs.Words.{user_word};
ghost use Rattle.trace_views.specs.LogText.{call_word, caller_word, lane_words};
ghost use Rattle.trace_views.specs.LogText.{context_word, reason_word, ran_words, answer_words, joined};
ghost use Rattle.trace_views.specs.LogText.{item_words, log_line, log_lines};

use crate::calls::CallTexts;
use crate::columns::put_number;
use crate::decimal::Decimal;
use ft_base::{Answer, CallNo, Ctx, Item, Ran, Reason, UserNo};
use ft_hist::History;
use ft_io::{Pieces, Sink};
use trace_views::Named;

/// Puts a call: the pid of its task, a dot and its number.
pub fn put_call<K: Sink, N: Named>(pieces: &mut Pieces, sink: &mut K, names: &N, call: CallNo)
    ensures { Puts K.holds K.faults (call_word (N.job names.now) call)
        sink.old pieces.old sink.new pieces.new }
{
    put_number(pieces, sink, names.task(call.task).pid);
    pieces.put(sink, b".");
    put_number(pieces, sink, call.n);
}

/// Puts a call, as `put_call` does.
// In place: nearly each line has one.
#[inline(always)]
fn put_known<K: Sink, N: Named>(
    pieces: &mut Pieces,
    sink: &mut K,
    texts: &mut CallTexts,
    names: &N,
    call: CallNo,
)
    ensures { Puts K.holds K.faults (call_word (N.job names.now) call)
        sink.old pieces.old sink.new pieces.new }
{
    texts.put(pieces, sink, names.task(call.task).pid, call);
}

/// Puts the enclosing call, or `-` at the outermost level.
#[inline(always)]
fn put_caller<K: Sink, N: Named>(
    pieces: &mut Pieces,
    sink: &mut K,
    texts: &mut CallTexts,
    names: &N,
    caller: Option<CallNo>,
)
    ensures { Puts K.holds K.faults (caller_word (N.job names.now) caller)
        sink.old pieces.old sink.new pieces.new }
{
    match caller {
        None => pieces.put(sink, b"-"),
        Some(call) => put_known(pieces, sink, texts, names, call),
    }
}

/// A context's name.
pub fn context_name(ctx: Ctx) -> &'static str
    ensures { result.now ≡ context_word ctx }
{
    match ctx {
        Ctx::Normal => "normal",
        Ctx::Softirq => "softirq",
        Ctx::Irq => "irq",
        Ctx::Nmi => "nmi",
    }
}

/// Puts a context between two spaces.
// Bytes that are known there are put by a store or two.
#[inline(always)]
fn put_context<K: Sink>(pieces: &mut Pieces, sink: &mut K, ctx: Ctx)
    ensures { Puts K.holds K.faults (codes " " ++ (context_word ctx ++ codes " "))
        sink.old pieces.old sink.new pieces.new }
{
    match ctx {
        Ctx::Normal => pieces.put(sink, b" normal "),
        Ctx::Softirq => pieces.put(sink, b" softirq "),
        Ctx::Irq => pieces.put(sink, b" irq "),
        Ctx::Nmi => pieces.put(sink, b" nmi "),
    }
}

/// The name of a refusal's reason.
pub fn reason_name(reason: Reason) -> &'static str
    ensures { result.now ≡ reason_word reason }
{
    match reason {
        Reason::Pid => "pid",
        Reason::Recursion => "recursion",
        Reason::Depth => "depth",
    }
}

/// What was fetched at a call site, and the name of a user that goes with it, else nothing.
pub(crate) fn ran_parts<'a, N: Named>(names: &'a N, ran: Ran) -> (&'static str, &'a str)
    ensures { result.0.now ++ result.1.now ≡ joined (ran_words (N.job names.now) ran) }
{
    match ran {
        Ran::Nop => ("nop", ""),
        Ran::List => ("list", ""),
        Ran::Own(user) => ("own ", names.user(user)),
    }
}

/// Puts the answer of a command.
pub(crate) fn put_answer<K: Sink, N: Named>(
    pieces: &mut Pieces,
    sink: &mut K,
    names: &N,
    answer: Answer,
)
    ensures { Puts K.holds K.faults (joined (answer_words (N.job names.now) answer))
        sink.old pieces.old sink.new pieces.new }
{
    match answer {
        Answer::Accepted => pieces.put(sink, b"ok"),
        Answer::Already => pieces.put(sink, b"already"),
        Answer::NotThere => pieces.put(sink, b"not-there"),
        Answer::Invalid => pieces.put(sink, b"invalid"),
        Answer::NoMatch => pieces.put(sink, b"no-match"),
        Answer::Busy { func, holder } => {
            let function = names.function(func);
            let holder = names.user(holder);
            pieces.put(sink, b"busy ");
            pieces.put(sink, function.as_bytes());
            pieces.put(sink, b" ");
            pieces.put(sink, holder.as_bytes());
        }
    }
}

/// Puts a word between two spaces, a call and a user.
#[inline(always)]
fn put_visit<K: Sink, N: Named>(
    pieces: &mut Pieces,
    sink: &mut K,
    texts: &mut CallTexts,
    names: &N,
    word: &[u8],
    call: CallNo,
    user: UserNo,
)
    ensures { Puts K.holds K.faults
        (word.now ++ joined (call_word (N.job names.now) call ∷ user_word (N.job names.now) user.0 ∷ []))
        sink.old pieces.old sink.new pieces.new }
{
    pieces.put(sink, word);
    put_known(pieces, sink, texts, names, call);
    pieces.put(sink, b" ");
    pieces.put(sink, names.user(user).as_bytes());
}

/// Puts the beginning of a command, and its lane if it has one.
fn put_begin<K: Sink>(pieces: &mut Pieces, sink: &mut K, k: u32, lane: Option<u32>)
    ensures { Puts K.holds K.faults (codes " " ++ joined (codes "begin" ∷ decimal k ∷ lane_words lane))
        sink.old pieces.old sink.new pieces.new }
{
    pieces.put(sink, b" begin ");
    put_number(pieces, sink, k);
    if let Some(lane) = lane {
        pieces.put(sink, b" lane ");
        put_number(pieces, sink, lane);
    }
}

/// Puts a space, and what an item says after its place.
// In place: else its calls save more than they do.
#[inline(always)]
fn put_item<K: Sink, N: Named>(
    pieces: &mut Pieces,
    sink: &mut K,
    texts: &mut CallTexts,
    names: &N,
    item: &Item,
)
    ensures { Puts K.holds K.faults (codes " " ++ joined (item_words (N.job names.now) item.now))
        sink.old pieces.old sink.new pieces.new }
{
    match *item {
        Item::Begin { k } => put_begin(pieces, sink, k, names.lane(k)),
        Item::Return { k, answer } => {
            pieces.put(sink, b" return ");
            put_number(pieces, sink, k);
            pieces.put(sink, b" ");
            put_answer(pieces, sink, names, answer);
        }
        Item::Enter {
            call,
            ctx,
            func,
            caller,
        } => {
            pieces.put(sink, b" enter ");
            put_known(pieces, sink, texts, names, call);
            put_context(pieces, sink, ctx);
            pieces.put(sink, names.function(func).as_bytes());
            pieces.put(sink, b" ");
            put_caller(pieces, sink, texts, names, caller);
        }
        Item::Back { call, user } => put_visit(pieces, sink, texts, names, b" back ", call, user),
        Item::BackEnd { call, user } => put_visit(
            pieces,
            sink,
            texts,
            names,
            b" back-end ",
            call,
            user,
        ),
        Item::Refuse { call, user, reason } => {
            put_visit(pieces, sink, texts, names, b" refuse ", call, user);
            pieces.put(sink, b" ");
            pieces.put(sink, reason_name(reason).as_bytes());
        }
        Item::Miss { call, user } => put_visit(pieces, sink, texts, names, b" miss ", call, user),
        Item::Body { call, func, ran } => {
            let (word, user) = ran_parts(names, ran);
            pieces.put(sink, b" body ");
            put_known(pieces, sink, texts, names, call);
            pieces.put(sink, b" ");
            pieces.put(sink, names.function(func).as_bytes());
            pieces.put(sink, b" ");
            pieces.put(sink, word.as_bytes());
            pieces.put(sink, user.as_bytes());
        }
        Item::Leave { call } => {
            pieces.put(sink, b" leave ");
            put_known(pieces, sink, texts, names, call);
        }
        Item::Exit { call, user, entry } => {
            put_visit(pieces, sink, texts, names, b" exit ", call, user);
            pieces.put(sink, b" ");
            put_number(pieces, sink, entry);
        }
        Item::ExitEnd { call, user } => put_visit(
            pieces,
            sink,
            texts,
            names,
            b" exit-end ",
            call,
            user,
        ),
        Item::Ret { call, to } => {
            pieces.put(sink, b" ret ");
            put_known(pieces, sink, texts, names, call);
            pieces.put(sink, b" ");
            put_caller(pieces, sink, texts, names, to);
        }
    }
}

/// Puts the line of an item at a place.
pub fn put_line<K: Sink, N: Named>(
    pieces: &mut Pieces,
    sink: &mut K,
    texts: &mut CallTexts,
    names: &N,
    place: u32,
    item: &Item,
)
    ensures { Puts K.holds K.faults (log_line (N.job names.now) place item.now)
        sink.old pieces.old sink.new pieces.new }
{
    put_number(pieces, sink, place);
    put_item(pieces, sink, texts, names, item);
    pieces.put(sink, b"\n");
}

/// Puts the line of each item in order, which begins with the item's place, up to the first line after
/// the sink has failed.
pub fn put_log<K: Sink, N: Named>(pieces: &mut Pieces, sink: &mut K, names: &N, history: &History)
    ensures { Puts K.holds K.faults (log_lines (N.job names.now) 0 history.now.items)
        sink.old pieces.old sink.new pieces.new }
{
    let mut digits = Decimal::of(0);
    let mut texts = CallTexts::new();
    for place in 0..history.len() {
        if pieces.has_failed() {
            return;
        }
        digits.put(pieces, sink);
        put_item(pieces, sink, &mut texts, names, history.item(place));
        pieces.put(sink, b"\n");
        digits.count();
    }
}
