//! A law of slots, for the layers above.

ghost use Rattle.std.specs.Prelude.{◌≡◌, ℕ, ◌<◌, length};
ghost use Rattle.ft_base.specs.Desk.{Desk, lowest, is_free};
ghost use Rattle.tramp_slots.specs.Holders.{Holders, is_free_slot};

/// If a desk and the slots agree on which slots are free, they agree on the slot that a user takes.
pub fn takes_the_slot_of_the_desk()
    ensures { (desk : Desk) (holders : Holders)
        → ((slot : ℕ) → slot < length holders → is_free desk slot ≡ is_free_slot holders slot)
        → lowest (is_free desk) 0 (length holders) ≡ lowest (is_free_slot holders) 0 (length holders) }
{}
