//! What is open after some items, and the lines that go by it.

ghost use Rattle.std.specs.Prelude.{◌≡◌, ◌+◌, ◌<◌, ◌^◌, not, List, [], ◌∷◌, ◌++◌, IfOk, OnOk, OnErr, length, vec_capacity};
ghost use Rattle.std.specs.List.{filter, find, list_any};
ghost use Rattle.ft_base.specs.declared.item.Item.{Item as AnItem};
ghost use Rattle.ft_base.specs.Job.{Job as PlainJob};
ghost use Rattle.ft_io.specs.Pieces.{Puts};
ghost use Rattle.told_items.specs.Open.{HasRoom, IsTold, is_call, is_owed_of, is_owed_to, owes};
ghost use Rattle.told_items.specs.ItemText.{end_word, told_last, told_line};

use crate::fields::{put_fields, put_open};
use ft_base::{CallNo, Ctx, FuncNo, Item, Kind, NoMemory, UserNo};
use ft_io::{Pieces, Sink};
use std::alloc::Global;
use trace_lines::put_number;
use trace_views::Named;

/// A call that is open, as its Enter tells it.
#[derive(Clone, Copy)]
pub(crate) struct Opened {
    pub(crate) call: CallNo,
    pub(crate) ctx: Ctx,
    pub(crate) func: FuncNo,
}

/// An exit that is to come: its call, its user, and the place of its entry callback.
#[derive(Clone, Copy)]
pub(crate) struct Owed {
    pub(crate) call: CallNo,
    pub(crate) user: UserNo,
    pub(crate) place: u32,
}

impl Opened {
    /// Whether it is this call.
    pub(crate) fn is_call(self, call: CallNo) -> bool
        ensures { result ≡ is_call call self }
    {
        self.call == call
    }
}

impl Owed {
    /// Whether it is owed to this call.
    pub(crate) fn is_owed_to(self, call: CallNo) -> bool
        ensures { result ≡ is_owed_to call self }
    {
        self.call == call
    }

    /// Whether it is one of this user, owed to this call.
    fn is_owed_of(self, call: CallNo, user: UserNo) -> bool
        ensures { result ≡ is_owed_of call user self }
    {
        self.call == call && self.user == user
    }
}

/// What is open after the items that were told: the calls and the exits that are to come, the latest last.
#[derive(Drop)]
pub struct Told {
    pub(crate) calls: Vec<Opened>,
    pub(crate) exits: Vec<Owed>,
    place: u32,
}

impl Told {
    /// Before the first item.
    pub fn new(alloc: Global) -> Told
        ensures { (job : PlainJob) → IsTold job [] result }
    {
        Told {
            calls: Vec::new(alloc),
            exits: Vec::new(alloc),
            place: 0,
        }
    }

    /// Takes room for what one more item may open, if there is none. The error says that memory ran out.
    pub fn make_room(&mut self) -> Result<(), NoMemory>
        ensures same { (job : PlainJob) (past : List AnItem) → IsTold job past self.old → IsTold job past self.new }
        ensures room { OnOk result (HasRoom self.new) }
        ensures kept { HasRoom self.old → HasRoom self.new }
        ensures full { OnErr result (HasRoom self.old → ⊥) }
    {
        room_for_one(&mut self.calls)?;
        room_for_one(&mut self.exits)
    }

    /// Puts the line of the next item. It takes no memory, since there is room.
    pub fn tell<K: Sink, N: Named>(
        &mut self,
        pieces: &mut Pieces,
        sink: &mut K,
        names: &N,
        item: &Item,
    )
        requires room { HasRoom self.old }
        requires counted { self.old.place + 1 < 2 ^ 32 }
        ensures puts { (past : List AnItem) → IsTold (N.job names.now) past self.old
            → Puts K.holds K.faults (told_line (N.job names.now) past item.now) sink.old pieces.old sink.new pieces.new }
        ensures told { (past : List AnItem) → IsTold (N.job names.now) past self.old
            → IsTold (N.job names.now) (item.now ∷ past) self.new }
    {
        pieces.put(sink, b"{\"place\": ");
        put_number(pieces, sink, self.place);
        put_fields(pieces, sink, names, self, item);
        pieces.put(sink, b"}\n");
        self.follow(names, item);
    }

    /// Puts the last line: how the log ends, how many items there are, and what is open.
    pub fn tell_end<K: Sink, N: Named>(
        &self,
        pieces: &mut Pieces,
        sink: &mut K,
        names: &N,
        ended: bool,
    )
        ensures { (past : List AnItem) → IsTold (N.job names.now) past self.now
            → Puts K.holds K.faults (told_last (N.job names.now) past ended) sink.old pieces.old sink.new pieces.new }
    {
        pieces.put(sink, b"{\"last\": \"");
        pieces.put(sink, end_name(ended).as_bytes());
        pieces.put(sink, b"\", \"items\": ");
        put_number(pieces, sink, self.place);
        put_open(pieces, sink, names, self);
        pieces.put(sink, b"}\n");
    }

    /// An open call.
    pub(crate) fn opened(&self, call: CallNo) -> Option<Opened>
        ensures { result ≡ find (is_call call) self.now.calls.items }
    {
        self.calls
            .iter()
            .copied()
            .find(|opened| opened.is_call(call))
    }

    /// Whether an exit is owed to a call.
    pub(crate) fn owes_to(&self, call: CallNo) -> bool
        ensures { result ≡ list_any (is_owed_to call) self.now.exits.items }
    {
        self.exits.iter().any(|owed| owed.is_owed_to(call))
    }

    /// What is open after one more item.
    fn follow<N: Named>(&mut self, names: &N, item: &Item)
        requires room { HasRoom self.old }
        requires counted { self.old.place + 1 < 2 ^ 32 }
        ensures { (past : List AnItem) → IsTold (N.job names.now) past self.old
            → IsTold (N.job names.now) (item.now ∷ past) self.new }
    {
        match *item {
            Item::Enter {
                call,
                ctx,
                func,
                ..
            } => self.calls.push_reserved(Opened { call, ctx, func }),
            Item::Back { call, user } => {
                if owes(names.kind(user)) {
                    self.exits.push_reserved(Owed {
                        call,
                        user,
                        place: self.place,
                    });
                }
            }
            Item::Miss { call, user } => self.settle(call, user),
            Item::Exit { call, user, .. } => self.settle(call, user),
            Item::Ret { call, .. } => self.close(call),
            _ => {}
        }
        self.place += 1;
    }

    /// The exit of a user is no longer owed to a call.
    fn settle(&mut self, call: CallNo, user: UserNo)
        ensures exits { self.new.exits.items ≡ filter (λ o. not (is_owed_of call user o)) self.old.exits.items }
        ensures calls { self.new.calls ≡ self.old.calls }
        ensures counted { self.new.place ≡ self.old.place }
    {
        self.exits.retain(|owed| !owed.is_owed_of(call, user));
    }

    /// A call is no longer open, and nothing is owed to it.
    fn close(&mut self, call: CallNo)
        ensures calls { self.new.calls.items ≡ filter (λ o. not (is_call call o)) self.old.calls.items }
        ensures exits { self.new.exits.items ≡ filter (λ o. not (is_owed_to call o)) self.old.exits.items }
        ensures counted { self.new.place ≡ self.old.place }
    {
        self.calls.retain(|opened| !opened.is_call(call));
        self.exits.retain(|owed| !owed.is_owed_to(call));
    }
}

/// Takes room for one more in a list, if there is none.
#[inline(always)]
fn room_for_one<T>(list: &mut Vec<T>) -> Result<(), NoMemory>
    ensures same { list.new.items ≡ list.old.items }
    ensures room { OnOk result (length list.new.items < vec_capacity list.new) }
    ensures kept { length list.old.items < vec_capacity list.old → length list.new.items < vec_capacity list.new }
    ensures full { OnErr result (length list.old.items < vec_capacity list.old → ⊥) }
{
    if list.len() < list.capacity() {
        return Ok(());
    }
    list.reserve(1).map_err(|_| NoMemory)
}

/// Whether an entry callback of this kind sets up an exit that comes, if there is room.
fn owes(kind: Kind) -> bool
    ensures { result ≡ owes kind }
{
    kind.wants_frame() && !kind.cancels()
}

/// How a log ends.
fn end_name(ended: bool) -> &'static str
    ensures { result.now ≡ end_word ended }
{
    if ended { "end" } else { "stopped" }
}
