//! The verdict on a history.

ghost use Rattle.std.specs.Prelude.{◌+◌, ◌<◌, ◌^◌, length, IfOk};
ghost use Rattle.history_check.specs.Verdicts.{IsVerdict};

use crate::past::Past;
use crate::verdict::Verdict;
use ft_base::{Item, NoMemory};
use ft_job::Job;
use std::alloc::Global;

/// What a history of a job is: whole, or legal and not whole, or broken, at which of its items, counted
/// from 0, and which part of legality is the first that this item breaks.
///
/// It works out the desk after each command, with each user and each function, and goes through the
/// items once. Beside a constant an item costs:
///
/// - an entry: the users that were visited in the call below it;
/// - an entry callback or a refusal: those that were visited in its call so far, and the callbacks that
///   are open in all tasks, which it counts for the recursion guard;
/// - the end of a callback: those that have begun since and are open, which are other tasks';
/// - the end of a dispatch: for each user of the job those that were visited in the call, and if it isn't
///   one of them the commands of the window up to the first after which it was off;
/// - an exit: the users that were visited in its call, and the exits that this has had;
/// - a return of a call: for each user that was visited in it the exits that it has had, and if one lacks
///   the commands since the body was over up to the first after which the registration wasn't live;
/// - the beginning of a command: control's lines above it, from the command before, and for each wait of
///   these the next acts of its task up to one that gives items;
/// - the return of a command that takes a user off: the callbacks that are open in all tasks.
///
/// In a call one callback is open at most, so no more are open than calls. The error says that memory ran
/// out.
pub fn judge(alloc: Global, job: &Job, items: &[Item]) -> Result<Verdict, NoMemory>
    requires { length items.now + 2 < 2 ^ 32 }
    ensures { IfOk result (λ v. IsVerdict job.now items.now v) }
{
    let mut past = Past::new(alloc, job)?;
    for item in items {
        let place = past.place;
        if let Some(rule) = past.note(alloc, item)? {
            return Ok(Verdict::Broken { place, rule });
        }
    }
    if past.is_at_end() {
        Ok(Verdict::Whole)
    } else {
        Ok(Verdict::Legal)
    }
}
