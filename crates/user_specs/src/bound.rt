//! A bound on the items of a call.

ghost use Rattle.std.specs.Prelude.{◌≡◌, ◌≤◌, length, map, count_by, is_some};
ghost use Rattle.user_specs.specs.Plain.{spec_of};
ghost use Rattle.user_specs.specs.Bound.{call_bound_of};

use crate::spec::Spec;
use ft_base::limits::{GUARD_LEVELS, USERS};

/// A bound on the items that one scripted call and its return make, with all callbacks of these
/// users, if each guard has so many levels, 1 or 2. With E users, of whom A have an act, a call in
/// which acts nest n deep has the bound B(n): B(0) is `4 + E`, and B(n + 1) is `4 + 5E + A * B(n)`. The
/// bound is B(2 * levels); the greatest is 1,227,133,508.
pub fn call_bound(specs: &[Spec], levels: u32) -> u32
    requires users { length specs.now ≤ USERS }
    requires levels { levels ≤ GUARD_LEVELS }
    ensures { result ≡ call_bound_of (map spec_of specs.now) levels }
{
    let users = specs.len() as u32;
    let acting = acting(specs) as u32;
    // A guard stops users' acts once all its levels are held. So acts nest as deep as there are levels
    // in the context of the call, and then as deep in that of an interrupt.
    let mut bound = 4 + users;
    for _ in 0..2 * levels {
        bound = 4 + 5 * users + acting * bound;
    }
    bound
}

/// How many users have an act.
fn acting(specs: &[Spec]) -> usize
    ensures { result ≡ count_by (λ s. is_some s.act) specs.now }
{
    specs.iter().filter(|spec| spec.act.is_some()).count()
}
