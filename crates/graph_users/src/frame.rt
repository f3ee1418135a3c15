//! The frame of a graph or profile user.

ghost use Rattle.std.specs.Prelude.{◌≡◌, ◌<◌, length, drop, slice_get};
ghost use Rattle.std.specs.Option.{ForSome, option_and_then};
ghost use Rattle.return_stack.specs.Calls.{top_users, frames_in, with_hook, with_user};

use ft_base::UserNo;
use ft_base::limits::USERS;
use return_stack::{FrameUser, Stacks};

/// A user was called back at the entry of the top call, under the registration `reg` and at the
/// place `entry` of the history: the call gets a frame if it has none, and the user is added to it.
/// The other calls must leave a frame, as they do if `may_enter` is true for the stacks' number of
/// frames, and the top call's frame must have room for one more user.
pub fn enter(stacks: &mut Stacks, user: UserNo, reg: u32, entry: u32)
    requires top { 0 < length stacks.old.calls }
    requires frame { frames_in (drop 1 stacks.old.calls) < stacks.old.frame_limit }
    requires room { ForSome (top_users stacks.old.calls) (λ users. length users < USERS) }
    ensures { stacks.new ≡ record stacks.old { calls = with_user (with_hook stacks.old.calls) (record { user = user; reg = reg; entry = entry }) } }
{
    // It can't be refused: if the call has no frame, those in use are the other calls' alone.
    stacks.hook().unwrap();
    stacks.add_user(user, reg, entry);
}

/// The user of the top call's frame whose exit comes after `from` others: they come in the order of
/// their entry callbacks. `None` exactly if there is none.
pub fn exit_next(stacks: &Stacks, from: u32) -> Option<FrameUser>
    requires { 0 < length stacks.now.calls }
    ensures { result ≡ option_and_then (λ users. slice_get users from) (top_users stacks.now.calls) }
{
    stacks.frame_user(from)
}
