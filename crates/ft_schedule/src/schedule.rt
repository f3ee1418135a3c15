//! Turns, and the text that they are read from.

ghost use Rattle.std.specs.Prelude.{◌≡◌, ◌≤◌, ◌++◌, All, Some, None, false, length, map, option_map, IfOk, OnOk, OnErr, IfErr};
ghost use Rattle.std.specs.List.{list_any};
ghost use Rattle.ft_base.specs.Schedule.{actors_in};
ghost use Rattle.ft_schedule.specs.Items.{turn_from, turns_in, items_in};
ghost use Rattle.ft_schedule.specs.Causes.{IsTurn, has_bad_count, cause_in, cause_of, IsCause};

use crate::causes::{has_unknown, is_past_limit};
use crate::faults::SchedFault;
use crate::item::{SchedItem, read_items};
use ft_base::Turn;
use ft_base::limits::STEPS;
use script_text::words;
use std::alloc::{AllocError, Global};

/// Whose turn it is: the turns, one after the other.
#[derive(Drop)]
pub struct Schedule {
    pub turns: Vec<Turn>,
}

/// Reads the items of a schedule, of which there are one or more, with blanks between them. An item
/// is `k` for control, a digit from `0` to `7` for that CPU, or `all` for control and then each of
/// the CPUs in order; `*COUNT` after it says how often.
///
/// `Syntax` says that there is no item, or one of another form. `Limit` says that a count is 0 or
/// above 4,294,967,295, or that the items have more than [`STEPS`] steps, where each count of `all`
/// is a step of control and one of each CPU. `Unknown` says that an item names a CPU that isn't
/// below `cpus`. The first of these in this order is reported, over the whole text. `NoMemory` says
/// that the program is out of memory, and may come in place of any other answer.
pub fn read_sched(alloc: Global, text: &str, cpus: u32) -> Result<Schedule, SchedFault>
    ensures turns { IfOk result (λ schedule. turns_in text.now ≡ Some schedule.turns.items) }
    ensures no_cause { OnOk result (cause_of cpus text.now ≡ None) }
    ensures err { IfErr result (IsCause cpus text.now) }
    ensures few { IfOk result (λ schedule. length (actors_in cpus schedule.turns.items) ≤ STEPS) }
    ensures each { IfOk result (λ schedule. All (IsTurn cpus) schedule.turns.items) }
{
    let Some(items) = read_text(alloc, text).map_err(|_| SchedFault::NoMemory)? else {
        return Err(SchedFault::Syntax);
    };
    if let Some(fault) = judge(items.as_slice(), cpus) {
        return Err(fault);
    }
    let mut turns = Vec::new(alloc);
    push_turns(&mut turns, items.as_slice()).map_err(|_| SchedFault::NoMemory)?;
    Ok(Schedule { turns })
}

/// The items of a text. `Ok(None)` says that there is none, or that one has none of the forms.
#[tactic(auto, unfolding(crate::specs::Items::items_in))]
fn read_text(alloc: Global, text: &str) -> Result<Option<Vec<SchedItem>>, AllocError>
    ensures { IfOk result (λ r. option_map (λ v. v.items) r ≡ items_in text.now) }
{
    let words = words(alloc, text)?;
    if words.is_empty() {
        return Ok(None);
    }
    read_items(alloc, words.as_slice())
}

/// The first cause to refuse the items.
fn judge(items: &[SchedItem], cpus: u32) -> Option<SchedFault>
    ensures { result ≡ cause_in cpus items.now }
{
    if is_past_limit(0, items, cpus) {
        return Some(SchedFault::Limit);
    }
    if has_unknown(items, cpus) {
        return Some(SchedFault::Unknown);
    }
    None
}

/// Puts the turns of these items last. Each count has to be that of a turn, as
/// [`is_past_limit`](crate::is_past_limit) tells. After an `Err` the turns are as before.
pub fn push_turns(turns: &mut Vec<Turn>, items: &[SchedItem]) -> Result<(), AllocError>
    requires { list_any has_bad_count items.now ≡ false }
    ensures ok { OnOk result (turns.new.items ≡ turns.old.items ++ map turn_from items.now) }
    ensures err { OnErr result (turns.new.items ≡ turns.old.items) }
{
    let before = turns.len();
    for item in items {
        let turn = Turn {
            who: item.who,
            count: item.count as u32,
        };
        if turns.push(turn).is_err() {
            turns.truncate(before);
            return Err(AllocError);
        }
    }
    Ok(())
}
