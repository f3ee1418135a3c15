//! Laws of the stacks over any list of calls, hooks and returns, for readers of the definitions and
//! for the layers above.

ghost use Rattle.std.specs.Prelude.{◌≡◌, ℕ, ◌<◌, ◌≤◌, List, length, slice_get, if◌then◌else◌};
ghost use Rattle.return_stack.specs.declared.stacks.Address.TheVariants.{Hook, To};
ghost use Rattle.return_stack.specs.Calls.{CallStack, caller_of, has_frame, address_of, up_to, frames_in};
ghost use Rattle.return_stack.specs.Moves.{Move, after_moves, plain_calls, ordinary};

/// The open calls are those of an ordinary stack, and a return gives the call that an ordinary stack
/// gives: the one below its top.
pub fn returns_reach_true_callers()
    ensures calls { (s : CallStack) (moves : List Move)
        → plain_calls (after_moves s moves) ≡ ordinary (plain_calls s) moves }
    ensures returns { (s : CallStack) (moves : List Move)
        → caller_of (after_moves s moves).calls ≡ slice_get (ordinary (plain_calls s) moves) 1 }
{}

/// The return address of a call is the hook exactly if the call has a frame. Otherwise it is the one
/// of an ordinary stack.
pub fn hooked_exactly_with_a_frame()
    ensures { (s : CallStack) (moves : List Move) (i : ℕ) → i < length (after_moves s moves).calls
        → let calls = up_to (after_moves s moves).calls i in
        address_of calls ≡ (if has_frame calls
        then Hook
        else To (slice_get (up_to (ordinary (plain_calls s) moves) i) 1)) }
{}

/// No more frames are in use than there are.
pub fn frames_are_enough()
    ensures { (s : CallStack) (moves : List Move) → frames_in s.calls ≤ s.frame_limit
        → frames_in (after_moves s moves).calls ≤ s.frame_limit }
{}
