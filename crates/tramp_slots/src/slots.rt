//! The slots and their holders.

ghost use Rattle.std.specs.Prelude.{◌≡◌, ℕ, ◌<◌, ◌≤◌, ◌↔◌, true, false, length, replicate, slice_set, Some, None, IfNone, IfSome, IsNone};
ghost use Rattle.ft_base.specs.Desk.{lowest};
ghost use Rattle.tramp_slots.specs.Holders.{holder_of, is_free_slot, AllHeld, IsLowestFree};

use ft_base::UserNo;
use ft_base::limits::TRAMPS;
use std::marker::Model;

/// The slots of trampolines. Contracts see the holder of each, in the order of the slots.
#[derive(Drop)]
pub struct Slots {
    /// The holder of each slot that there can be. Those from `size` on aren't used.
    holders: [Option<UserNo>; TRAMPS as usize],
    size: u8,
}

impl Model for Slots {
    ghost use Rattle.std.specs.Prelude.{◌≤◌, take};
    ghost use Rattle.ft_base.specs.declared.limits.TheConstants.{TRAMPS};
    ghost use Rattle.tramp_slots.specs.Holders.{Holders};

    ghost Value = { Holders };

    ghost view = { λ s. take s.size s.holders };

    ghost invariant = { λ s. s.size ≤ TRAMPS };
}

impl Slots {
    /// This many slots, numbered from 0, and all of them free.
    pub fn new(n: u8) -> Slots
        requires { n ≤ TRAMPS }
        ensures free { result ≡ replicate n None }
        ensures size { length result ≡ n }
    {
        Slots {
            holders: [None; TRAMPS as usize],
            size: n,
        }
    }

    /// The user takes the lowest free slot, which is the answer. None exactly if no slot is free,
    /// and then nothing changes.
    pub fn take(&mut self, user: UserNo) -> Option<u8>
        ensures slot { result ≡ lowest (is_free_slot self.old) 0 (length self.old) }
        ensures least { IfSome result (IsLowestFree self.old) }
        ensures none { IsNone result ↔ AllHeld self.old }
        ensures taken { IfSome result (λ slot. self.new ≡ slice_set self.old slot (Some user)) }
        ensures refused { IfNone result (self.new ≡ self.old) }
        ensures size { length self.new ≡ length self.old }
    {
        let slot = self.lowest_free()?;
        self.holders[slot as usize] = Some(user);
        Some(slot)
    }

    /// The holder of a slot gives it back, so that it is free.
    pub fn give(&mut self, slot: u8)
        requires { is_free_slot self.old slot ≡ false }
        ensures given { self.new ≡ slice_set self.old slot None }
        ensures size { length self.new ≡ length self.old }
    {
        self.holders[slot as usize] = None;
    }

    /// The user that holds a slot, or none if it is free.
    pub fn holder(&self, slot: u8) -> Option<UserNo>
        requires { slot < length self.now }
        ensures { result ≡ holder_of self.now slot }
    {
        self.holders[slot as usize]
    }

    /// The lowest free slot.
    fn lowest_free(&self) -> Option<u8>
        ensures slot { result ≡ lowest (is_free_slot self.now) 0 (length self.now) }
        ensures least { IfSome result (IsLowestFree self.now) }
        ensures none { IfNone result (AllHeld self.now) }
    {
        for slot in 0..self.size {
            if self.holders[slot as usize].is_none() {
                return Some(slot);
            }
        }
        None
    }
}
