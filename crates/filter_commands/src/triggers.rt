//! From a trigger's text to its trigger.

ghost use Rattle.std.specs.Prelude.{◌≡◌, ◌↔◌, ◌≤◌, length, true, false, IfOk, OnOk, IfSome, IsErrOf, Some, None, Err};
ghost use Rattle.ft_base.specs.declared.limits.TheConstants.{TRIGGER_LIMIT};
ghost use Rattle.glob_filter.specs.Items.{items_of};
ghost use Rattle.filter_commands.specs.Causes.{is_bad_glob};
ghost use Rattle.filter_commands.specs.Edits.{selected};
ghost use Rattle.filter_commands.specs.Forms.{named};
ghost use Rattle.filter_commands.specs.Triggers.{trigger_of, trigger_cause};
ghost use Rattle.filter_commands.specs.Meanings.{plain_trigger};

use crate::faults::TriggerFault;
use crate::selector::Selector;
use crate::trigger_text::read_parts;
use func_table::FuncTable;
use glob_filter::{Pattern, PatternFault};
use site_set::SiteSet;
use std::alloc::Global;

/// What switches tracing on or off, and at the calls of which functions (`ftrace.rst`, "Filter
/// commands").
#[derive(Drop)]
pub struct Trigger {
    /// Tracing is switched on (`traceon`), and not off (`traceoff`).
    pub on: bool,
    /// How often the trigger may fire, from 1 to [`ft_base::limits::TRIGGER_LIMIT`], if that is
    /// limited.
    pub limit: Option<u32>,
    /// The functions at whose calls it fires. There may be none.
    pub set: SiteSet,
}

/// The pattern of a trigger's glob.
fn read_pattern(alloc: Global, glob: &str) -> Result<Pattern, TriggerFault>
    ensures items { IfOk result (λ pattern. pattern ≡ items_of glob.now) }
    ensures ok { OnOk result (is_bad_glob glob.now ≡ false) }
    ensures pattern { IsErrOf result TriggerFault.Pattern ↔ (is_bad_glob glob.now ≡ true) }
    ensures command { ¬ IsErrOf result TriggerFault.Command }
{
    match Pattern::read(alloc, glob) {
        Ok(pattern) => Ok(pattern),
        Err(PatternFault::NoMemory) => Err(TriggerFault::NoMemory),
        Err(PatternFault::Empty | PatternFault::Backslash | PatternFault::TooLong) => {
            Err(TriggerFault::Pattern)
        }
    }
}

/// The set of the functions whose names match a glob.
fn select(alloc: Global, glob: &str, table: &FuncTable) -> Result<SiteSet, TriggerFault>
    ensures set { IfOk result (λ set. set ≡ selected table.now.functions (named glob.now)) }
    ensures size { IfOk result (λ set. length set ≡ length table.now.functions) }
    ensures ok { OnOk result (is_bad_glob glob.now ≡ false) }
    ensures pattern { IsErrOf result TriggerFault.Pattern ↔ (is_bad_glob glob.now ≡ true) }
    ensures command { ¬ IsErrOf result TriggerFault.Command }
{
    let selector = Selector::ByName(read_pattern(alloc, glob)?);
    selector
        .select(alloc, table)
        .map_err(|_| TriggerFault::NoMemory)
}

/// The trigger that a text makes over the functions of the table: GLOB, then `:traceon` or
/// `:traceoff`, and an optional `:N`, which says how often it may fire; without it there is no limit.
/// N has 1 to 7 digits and is 1 to 1,000,000. GLOB is the part before the first `:`, and it is a glob
/// alone, also if it is digits or begins with a `!`. It may match no function.
///
/// A text is refused with `Command` exactly if it isn't of this form, and with `Pattern` exactly if
/// it is and GLOB is no pattern. `NoMemory` says that memory ran out.
pub fn read_trigger(alloc: Global, text: &str, table: &FuncTable) -> Result<Trigger, TriggerFault>
    ensures trigger { IfOk result (λ trigger. plain_trigger trigger ≡ trigger_of table.now.functions text.now) }
    ensures size { IfOk result (λ trigger. length trigger.set ≡ length table.now.functions) }
    ensures limit { IfOk result (λ trigger. IfSome trigger.limit (λ limit. (1 ≤ limit) × (limit ≤ TRIGGER_LIMIT))) }
    ensures ok { OnOk result (trigger_cause text.now ≡ None) }
    ensures command { IsErrOf result TriggerFault.Command ↔ (trigger_cause text.now ≡ Some TriggerFault.Command) }
    ensures pattern { IsErrOf result TriggerFault.Pattern ↔ (trigger_cause text.now ≡ Some TriggerFault.Pattern) }
{
    let Some(parts) = read_parts(text) else {
        return Err(TriggerFault::Command);
    };
    let set = select(alloc, parts.glob, table)?;
    Ok(Trigger {
        on: parts.on,
        limit: parts.limit,
        set,
    })
}
