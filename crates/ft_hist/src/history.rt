//! A history that the program keeps.

ghost use Rattle.std.specs.Prelude.{◌≡◌, ℕ, ◌+◌, ◌-◌, ◌<◌, ◌≤◌, ◌^◌, List, [], ◌∷◌, ◌++◌, length, nat_eq, IfOk, OnErr, OnOk, set, slice_get};
ghost use Rattle.ft_hist.specs.Counts.{is_back_of, is_missed_by, backs_of, missed_by};

use ft_base::{Item, NoMemory, Reason, UserNo};
use std::alloc::Global;
use std::marker::Model;

/// A history, which contracts see as its items and the room that is left for more.
#[derive(Drop)]
pub struct History {
    kept: Vec<Item>,
    room: u32,
}

impl Model for History {
    ghost use Rattle.std.specs.Prelude.{◌-◌, ◌≤◌, ◌<◌, ◌^◌, vec_len, vec_capacity};
    ghost use Rattle.ft_hist.specs.Shown.{Shown};

    ghost Value = { Shown };

    ghost view = { λ h. record { items = h.kept.items; spare = h.room - vec_len h.kept } };

    ghost invariant = { λ h. (vec_len h.kept ≤ h.room) × (h.room ≤ vec_capacity h.kept) × (h.room < 2 ^ 32) };
}

impl History {
    /// An empty history with room for `n` items. The error says that there is no memory for it.
    pub fn with_room(alloc: Global, n: u32) -> Result<History, NoMemory>
        ensures empty { IfOk result (λ h. h.items ≡ []) }
        ensures room { IfOk result (λ h. n ≤ h.spare) }
    {
        match Vec::with_capacity(alloc, n as usize) {
            Ok(kept) => Ok(History { kept, room: n }),
            Err(_) => Err(NoMemory),
        }
    }

    /// How many items it has.
    pub fn len(&self) -> u32
        ensures { result ≡ length self.now.items }
    {
        self.kept.len() as u32
    }

    /// The item at a place.
    pub fn item(&self, p: u32) -> &Item
        requires { p < length self.now.items }
        ensures { slice_get self.now.items p ≡ Some result.now }
    {
        &self.kept[p as usize]
    }

    /// Adds an item at the end. It takes no memory, since the room was taken before.
    pub fn push(&mut self, item: Item)
        requires { 0 < self.old.spare }
        ensures added { self.new.items ≡ self.old.items ++ item ∷ [] }
        ensures room { self.old.spare ≤ self.new.spare + 1 }
    {
        self.kept.push_reserved(item);
    }

    /// Whether there is no room for another item.
    fn is_full(&self) -> bool
        ensures { result ≡ nat_eq self.now.spare 0 }
    {
        self.kept.len() >= self.room as usize
    }

    /// Takes room for more items if there is none left. The error says that there is no memory for it.
    #[inline(always)]
    pub fn make_room(&mut self) -> Result<(), NoMemory>
        ensures items { self.new.items ≡ self.old.items }
        ensures room { OnOk result (0 < self.new.spare) }
        ensures kept { self.old.spare ≤ self.new.spare }
        ensures full { OnErr result (self.old.spare ≡ 0) }
    {
        if self.is_full() {
            return self.grow();
        }
        Ok(())
    }

    /// Takes room for at least one more item, and mostly for as many more as there are, so that an item
    /// costs the same however many there are.
    fn grow(&mut self) -> Result<(), NoMemory>
        ensures items { self.new.items ≡ self.old.items }
        ensures room { OnOk result (0 < self.new.spare) }
        ensures kept { self.old.spare ≤ self.new.spare }
    {
        self.kept.reserve(1).map_err(|_| NoMemory)?;
        self.room = u32::try_from(self.kept.capacity()).unwrap_or(u32::MAX);
        if self.is_full() {
            return Err(NoMemory);
        }
        Ok(())
    }

    /// Puts an item in place of the one at a place.
    pub(crate) fn set(&mut self, p: u32, item: Item)
        requires { p < length self.old.items }
        ensures { self.new.items ≡ set self.old.items p item }
    {
        self.kept[p as usize] = item;
    }

    /// How often a user was called back at the entry of a call.
    pub fn backs(&self, u: UserNo) -> u32
        ensures { result ≡ backs_of u.0 self.now.items }
    {
        self.kept.iter().filter(|item| is_back(item, u)).count() as u32
    }

    /// How often an fprobe missed: its callback was refused by the recursion guard, or its exit
    /// found no frame (`fprobe.rst`, The missed counter).
    pub fn missed(&self, u: UserNo) -> u32
        ensures { result ≡ missed_by u.0 self.now.items }
    {
        self.kept.iter().filter(|item| is_missed(item, u)).count() as u32
    }
}

/// Whether the item is an entry callback of the user.
fn is_back(item: &Item, u: UserNo) -> bool
    ensures { result ≡ is_back_of u.0 item.now }
{
    matches!(item, Item::Back { user, .. } if *user == u)
}

/// Whether the item is one that the user missed.
fn is_missed(item: &Item, u: UserNo) -> bool
    ensures { result ≡ is_missed_by u.0 item.now }
{
    match item {
        Item::Refuse { user, reason, .. } => *user == u && *reason == Reason::Recursion,
        Item::Miss { user, .. } => *user == u,
        _ => false,
    }
}
