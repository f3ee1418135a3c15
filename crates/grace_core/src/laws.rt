//! The law of waits, for readers of the definitions and for the layers above.

ghost use Rattle.std.specs.Prelude.{◌≡◌, ℕ, ◌<◌, Bool, List, Some, None};
ghost use Rattle.word_map.specs.declared.shape.Shape.{Shape};
ghost use Rattle.word_map.specs.Ops.{Store};
ghost use Rattle.word_map.specs.Words.{Want};
ghost use Rattle.grace_core.specs.Waits.{awaited, wait_next, wait_start};
ghost use Rattle.grace_core.specs.Pasts.{HasSeen, wait_past};

/// A wait first stores its request. Once it is over, it has loaded the word of each CPU or task that
/// it is for, and found the request reached.
pub fn over_once_all_have_reached()
    ensures asks { (shape : Shape) (quiet : Bool) (request : ℕ)
        → wait_next (wait_start shape quiet request) ≡ Some (Store Want request) }
    ensures over { (shape : Shape) (quiet : Bool) (request : ℕ) (values : List ℕ) (n : ℕ)
        → wait_next (wait_past (wait_start shape quiet request) values) ≡ None
        → n < awaited (wait_start shape quiet request) → HasSeen (wait_start shape quiet request) values n }
{}
