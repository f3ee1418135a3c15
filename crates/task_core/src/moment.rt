//! Where a task stands, and what loaded words lead to.

ghost use Rattle.std.specs.Prelude.{◌≡◌, ◌<◌, nat_le, if◌then◌else◌};
ghost use Rattle.ft_base.specs.declared.limits.TheConstants.{FUNCS};
ghost use Rattle.ft_hist.specs.Plain.{owed_by};
ghost use Rattle.word_map.specs.Contents.{greatest_half};
ghost use Rattle.word_map.specs.Instructions.{decode, number_of};
ghost use Rattle.task_core.specs.Leads.{IsFetched, act_to, head_to, is_fetching, is_quiet};

use ft_base::{Ctx, FuncNo, Reason, UserNo};
use hash_pages::PageReader;
use site_bytes::{BREAKPOINT, Insn, decode, join};
use user_specs::{Act, Spec};

/// Where a task stands between two operations. The word machine's moments have the same names, but
/// for those that are told below.
#[derive(Clone, Copy)]
pub(crate) enum Moment {
    /// Before the poll of its next act, or after its last act.
    Polling,
    /// After that poll, before the act's first operation.
    First,
    /// In a call, before this load.
    Load(ToLoad),
    /// In a call, before this mark.
    Mark(ToMark),
}

/// A load of the top call.
#[derive(Clone, Copy)]
pub(crate) enum ToLoad {
    /// The first byte of the call site.
    Fetch,
    /// The other four, after this first byte.
    GotHead(u8),
    /// The instruction that is being put at the site, after a breakpoint.
    GotBreak,
    /// The word of this trampoline.
    InTramp(u8),
    /// The state of the trampoline's user, which had this registration number.
    OwnSel { user: UserNo, reg: u32 },
    /// The next load of the call's walk: the machine's `AtFirst` before the list, and `AtLink` at a
    /// user.
    Walking,
    /// The next load of this read of the user where the walk is: the machine's `TestSel`,
    /// `TestFilter` and `TestNotrace`.
    Reading(PageReader),
    /// The traced tasks, for a user that is on under this registration number.
    AtPids { user: UserNo, reg: u32 },
    /// The graph depth, for such a user. A level of the context's guard is taken.
    AtDepth { user: UserNo, reg: u32 },
    /// The state of the user at this place of the call's frame, whose exit is next.
    AtExit(u32),
}

/// A mark of the top call.
#[derive(Clone, Copy)]
pub(crate) enum ToMark {
    /// The user is on, under this registration number, and is refused.
    Refusing {
        user: UserNo,
        reg: u32,
        reason: Reason,
    },
    /// The user, which is on under this registration number, is called back.
    Calling {
        user: UserNo,
        reg: u32,
    },
    /// The exit of the user finds no frame.
    Missing {
        user: UserNo,
    },
    /// The user's act calls this function in this context.
    Acting {
        user: UserNo,
        func: FuncNo,
        ctx: Ctx,
    },
    /// The user's callback ends.
    Ending {
        user: UserNo,
    },
    /// The dispatch is over, and the body runs.
    Closing,
    /// The body is over, of a call that an act made.
    Leaving,
    /// The exit callback of the user at this place of the call's frame begins.
    Exiting(u32),
    /// It ends.
    EndingExit(u32),
    /// The call returns.
    Returning,
}

impl Moment {
    /// Between two acts. Whatever the task loaded before, it uses no more.
    pub(crate) fn is_quiet(&self) -> bool
        ensures { result ≡ is_quiet self.now }
    {
        matches!(self, Moment::Polling | Moment::First)
    }

    /// Between the two loads of a fetch.
    pub(crate) fn is_fetching(&self) -> bool
        ensures { result ≡ is_fetching self.now }
    {
        matches!(
            self,
            Moment::Load(ToLoad::GotHead(_)) | Moment::Load(ToLoad::GotBreak)
        )
    }
}

/// After the first byte of a call site is loaded.
pub(crate) fn after_head(value: u64) -> Moment
    requires { value < 256 }
    ensures { result ≡ head_to value }
{
    let head = value as u8;
    if head == BREAKPOINT {
        Moment::Load(ToLoad::GotBreak)
    } else {
        Moment::Load(ToLoad::GotHead(head))
    }
}

/// The instruction at a call site of this function, of which these two words were loaded. They are of
/// one instruction: no CPU loads one of them before a patch and the other after it.
pub(crate) fn insn_read(func: FuncNo, head: u8, tail: u64) -> Insn
    requires func { func.0 < FUNCS }
    requires fetched { IsFetched func.0 head tail }
    ensures { number_of result ≡ decode func.0 head tail }
{
    match decode(func, join(head, tail as u32)) {
        Some(insn) => insn,
        None => unreachable!(),
    }
}

/// The graph depth that a word holds, or the greatest number of 32 bits if it is above: no task holds
/// as many frames as either.
pub(crate) fn depth_in(value: u64) -> u32
    ensures { result ≡ (if nat_le value greatest_half then value else greatest_half) }
{
    u32::try_from(value).unwrap_or(u32::MAX)
}

/// In a callback of the user in this context, after its Back and perhaps its Miss: its act makes its
/// call, or the callback ends.
pub(crate) fn act_in(spec: &Spec, user: UserNo, ctx: Ctx) -> Moment
    ensures { result ≡ act_to user (owed_by ctx spec.now.act) }
{
    let mark = match spec.act {
        Some(Act::CallIn(func)) => ToMark::Acting { user, func, ctx },
        Some(Act::IrqIn(func)) => match ft_base::raise(ctx, Ctx::Irq) {
            Some(ctx) => ToMark::Acting { user, func, ctx },
            None => ToMark::Ending { user },
        },
        None => ToMark::Ending { user },
    };
    Moment::Mark(mark)
}
