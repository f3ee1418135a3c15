//! The holders of functions, and the first conflict with them.

ghost use Rattle.std.specs.Prelude.{◌≡◌, ◌↔◌, Some, length, All, IsNone, IfNone, IfSome};
ghost use Rattle.ipmodify.specs.Conflicts.{conflict_of, IsFree, IsFirstConflict};
ghost use Rattle.ipmodify.specs.Pairs.{lower_of, IsApart, IsMeeting};

use ft_base::{FuncNo, UserNo};
use site_set::SiteSet;

/// A user and the functions that it replaces. The set is empty if the user isn't registered, or
/// replaces none.
#[derive(Drop)]
pub struct Holder {
    pub user: UserNo,
    pub on: SiteSet,
}

/// A function that a holder has already.
#[derive(Clone, Copy, PartialEq, Eq)]
pub struct Conflict {
    pub func: FuncNo,
    pub holder: UserNo,
}

/// The lowest function that is in `on` and in the set of a holder whose user isn't `me`, with the
/// first such holder. `None` exactly if there is none (`ftrace-uses.rst`, The ftrace FLAGS:
/// `FTRACE_OPS_FL_IPMODIFY`).
pub fn check(on: &SiteSet, holders: &[Holder], me: UserNo) -> Option<Conflict>
    requires sizes { All (λ h. length on.now ≡ length h.on) holders.now }
    ensures value { result ≡ conflict_of on.now holders.now me.0 }
    ensures none { IsNone result ↔ IsFree on.now holders.now me.0 }
    ensures first { IfSome result (IsFirstConflict on.now holders.now me.0) }
{
    let mut first = None;
    for holder in holders.iter() {
        first = lower(first, conflict_with(on, holder, me));
    }
    first
}

/// The conflict with one holder at the lowest function.
fn conflict_with(on: &SiteSet, holder: &Holder, me: UserNo) -> Option<Conflict>
    requires size { length on.now ≡ length holder.now.on }
    ensures none { IfNone result (IsApart on.now holder.now me.0) }
    ensures some { IfSome result (IsMeeting on.now holder.now me.0) }
{
    if holder.user == me {
        return None;
    }
    let func = on.first_common(&holder.on)?;
    Some(Conflict {
        func: FuncNo(func),
        holder: holder.user,
    })
}

/// Of two conflicts the one at the lower function, and the first if the functions are one.
fn lower(first: Option<Conflict>, other: Option<Conflict>) -> Option<Conflict>
    ensures { result ≡ lower_of first other }
{
    match (first, other) {
        (Some(earlier), Some(later)) if later.func.0 < earlier.func.0 => other,
        (Some(_), _) => first,
        (None, _) => other,
    }
}
