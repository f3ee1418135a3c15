//! The rows of a profile.

ghost use Rattle.std.specs.Prelude.{◌≡◌, IfOk};
ghost use Rattle.func_profile.specs.Rows.{rows_of, HasRows};

use crate::tally::Tally;
use ft_base::{FuncNo, NoMemory, UserNo};
use ft_hist::History;
use std::alloc::Global;

/// A function in whose calls a user was called back.
#[derive(Clone, Copy, PartialEq, Eq)]
pub struct ProfileRow {
    pub func: FuncNo,
    /// How often the user was called back at the entry of a call of the function.
    pub hits: u32,
    /// How long these calls took, from the user's callback at the entry to that at the exit, with
    /// the calls within them. The clock counts the items of the history.
    pub time: u64,
}

/// The rows of the functions below `funcs` in whose calls the user was called back, by number
/// (`ftrace.rst`, `function_profile_enabled` and `trace_stat`). It takes time linear in the history
/// and the functions. The error says that memory ran out.
pub fn rows(
    alloc: Global,
    history: &History,
    user: UserNo,
    funcs: u32,
) -> Result<Vec<ProfileRow>, NoMemory>
    requires { HasRows funcs history.now.items }
    ensures { IfOk result (λ rows. rows.items ≡ rows_of history.now.items user.0 funcs) }
{
    let mut tally = Tally::new(alloc, funcs)?;
    for place in 0..history.len() {
        tally.note(history, place, user)?;
    }
    Ok(tally.into_rows())
}
