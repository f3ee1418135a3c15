//! What an fprobe's callback at the entry of a call leaves for its return.

ghost use Rattle.std.specs.Prelude.{◌≡◌, ◌<◌, ◌↔◌, true, false, length};
ghost use Rattle.std.specs.Option.{ForSome};
ghost use Rattle.ft_base.specs.Kinds.{is_fprobe, has_exit, cancels};
ghost use Rattle.return_stack.specs.Calls.{top_users, is_full};
ghost use Rattle.fprobe.specs.Entry.{calls_after};

use ft_base::UserNo;
use ft_base::limits::USERS;
use return_stack::Stacks;
use user_specs::Spec;

/// What comes of an fprobe's callback at the entry of a call.
#[derive(Clone, Copy, PartialEq, Eq)]
pub enum Probe {
    /// It has no exit handler.
    Plain,
    /// Its exit is set up: the call's frame owes it.
    Wanted,
    /// Its entry handler cancels the exit (`fprobe.rst`, The fprobe entry/exit handler). The call
    /// has a frame, which doesn't owe it.
    Cancelled,
    /// Its exit can't be set up, as no frame is left (`fprobe.rst`, The missed counter).
    Missed,
}

/// An fprobe was called back at the entry of the top call, under the registration `reg` and at the
/// place `entry` of the history. An exit handler needs a frame of the call, also if it is cancelled.
pub fn probe_entry(stacks: &mut Stacks, spec: &Spec, user: UserNo, reg: u32, entry: u32) -> Probe
    requires kind { is_fprobe spec.now.kind ≡ true }
    requires top { 0 < length stacks.old.calls }
    requires room { ForSome (top_users stacks.old.calls) (λ users. length users < USERS) }

    ensures plain { (result ≡ Probe.Plain) ↔ (has_exit spec.now.kind ≡ false) }
    ensures missed { (result ≡ Probe.Missed) ↔ ((has_exit spec.now.kind ≡ true) × (is_full stacks.old ≡ true)) }
    ensures cancelled { result ≡ Probe.Cancelled → cancels spec.now.kind ≡ true }
    ensures wanted { result ≡ Probe.Wanted → cancels spec.now.kind ≡ false }

    ensures stacks { stacks.new ≡ record stacks.old { calls = calls_after result stacks.old.calls (record { user = user; reg = reg; entry = entry }) } }
{
    if !spec.kind.has_exit() {
        return Probe::Plain;
    }
    if stacks.hook().is_err() {
        return Probe::Missed;
    }
    if spec.kind.cancels() {
        return Probe::Cancelled;
    }
    stacks.add_user(user, reg, entry);
    Probe::Wanted
}
