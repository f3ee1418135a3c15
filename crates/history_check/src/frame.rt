//! A call on the plain stack.

ghost use Rattle.std.specs.Prelude.{◌≡◌, map, option_map};
ghost use Rattle.ft_base.specs.Desk.{spec_at};
ghost use Rattle.ft_base.specs.Job.{Job as PlainJob};
ghost use Rattle.ft_hist.specs.Plain.{owed_by};
ghost use Rattle.history_check.specs.PlainRuns.{frame_of, owed_of, phase_after, phase_of, runs_script};
ghost use Rattle.user_specs.specs.Plain.{spec_of};

use ft_base::{Act, CallNo, Ctx, FuncNo, Item, UserNo};
use user_specs::Spec;

/// A call that a user's act owes: in which context, of which function.
#[derive(Clone, Copy)]
pub struct Owed {
    pub ctx: Ctx,
    pub func: FuncNo,
}

/// How far a call is.
#[derive(Clone, Copy)]
pub enum Phase {
    /// In its dispatch, between two callbacks.
    Dispatch,
    /// In an entry callback, whose act may owe a call, and which may have a miss directly after it.
    InBack {
        user: UserNo,
        owed: Option<Owed>,
        fresh: bool,
    },
    /// In its body.
    Running,
    /// In its return, between two callbacks.
    Leaving,
    /// In an exit callback.
    InExit {
        user: UserNo,
    },
}

/// A call on the plain stack. The script makes it, or a user's act.
#[derive(Clone, Copy)]
pub struct Frame {
    pub call: CallNo,
    pub ctx: Ctx,
    pub func: FuncNo,
    pub scripted: bool,
    pub phase: Phase,
}

impl Frame {
    /// Whether the script's next act is in its body.
    pub(crate) fn is_running_script(self) -> bool
        ensures { result ≡ runs_script (frame_of self) }
    {
        match self.phase {
            Phase::Running => self.scripted,
            _ => false,
        }
    }

    /// The same call, in another phase.
    pub(crate) fn in_phase(self, phase: Phase) -> Frame
        ensures { result ≡ record self { phase = phase } }
    {
        Frame { phase, ..self }
    }
}

/// What a user's act owes at a callback in this context. An interrupt comes only below its own level.
pub(crate) fn owed_by(ctx: Ctx, act: Option<Act>) -> Option<Owed>
    ensures { option_map owed_of result ≡ owed_by ctx act }
{
    match act {
        None => None,
        Some(Act::CallIn(func)) => Some(Owed { ctx, func }),
        Some(Act::IrqIn(func)) => match ctx {
            Ctx::Normal | Ctx::Softirq => Some(Owed {
                ctx: Ctx::Irq,
                func,
            }),
            Ctx::Irq | Ctx::Nmi => None,
        },
    }
}

/// How far the top call is after an item of it, if the item may come there and changes no more than
/// that.
pub(crate) fn phase_after(specs: &[Spec], top: &Frame, item: &Item) -> Option<Phase>
    ensures { (job : PlainJob) → job.users ≡ map spec_of specs.now → option_map phase_of result ≡ phase_after job (frame_of top.now) item.now }
{
    match (*item, top.phase) {
        (Item::Back { user, .. }, Phase::Dispatch) => Some(Phase::InBack {
            user,
            owed: owed_by(top.ctx, act_of(specs, user)),
            fresh: true,
        }),
        (
            Item::Miss { user, .. },
            Phase::InBack {
                user: open,
                owed,
                fresh: true,
            },
        ) if user == open => Some(Phase::InBack {
            user,
            owed,
            fresh: false,
        }),
        (
            Item::BackEnd { user, .. },
            Phase::InBack {
                user: open,
                owed: None,
                ..
            },
        ) if user == open => Some(Phase::Dispatch),
        (Item::Refuse { .. }, Phase::Dispatch) => Some(Phase::Dispatch),
        (Item::Body { .. }, Phase::Dispatch) => Some(Phase::Running),
        (Item::Exit { user, .. }, Phase::Leaving) => Some(Phase::InExit { user }),
        (Item::ExitEnd { user, .. }, Phase::InExit { user: open }) if user == open => {
            Some(Phase::Leaving)
        }
        _ => None,
    }
}

/// What a user does at its entry callbacks. A user that there isn't does nothing.
fn act_of(specs: &[Spec], user: UserNo) -> Option<Act>
    ensures { (job : PlainJob) → job.users ≡ map spec_of specs.now → result ≡ (spec_at job user.0).act }
{
    specs.get(user.0 as usize)?.act
}
