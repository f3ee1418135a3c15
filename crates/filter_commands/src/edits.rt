//! From a filter text to its edit.

ghost use Rattle.std.specs.Prelude.{◌≡◌, ◌↔◌, [], length, true, false, IfOk, OnOk, IfErr, IsErrOf, Some, None, Err, if◌then◌else◌};
ghost use Rattle.std.specs.Str.Parse.{digits_value};
ghost use Rattle.ft_base.specs.Marks.{empty};
ghost use Rattle.filter_commands.specs.Forms.{line, is_number, form_of};
ghost use Rattle.filter_commands.specs.Causes.{has_no_line, form_cause, first_cause, IsCause};
ghost use Rattle.filter_commands.specs.Edits.{selected, selected_by, edit_of};
ghost use Rattle.site_set.specs.Edits.{plain_edit};

use crate::faults::EditFault;
use crate::forms::{TextForm, read_form, strip_mark};
use crate::lines::function_at_line;
use crate::selector::Selector;
use func_table::FuncTable;
use site_set::{Edit, SiteSet};
use std::alloc::Global;

/// The set of no function of the table.
fn empty_set(alloc: Global, table: &FuncTable) -> Result<SiteSet, EditFault>
    ensures set { IfOk result (λ set. set ≡ empty (length table.now.functions)) }
    ensures size { IfOk result (λ set. length set ≡ length table.now.functions) }
    ensures err { IfErr result (λ fault. fault ≡ EditFault.NoMemory) }
{
    SiteSet::empty(alloc, table.len()).map_err(|_| EditFault::NoMemory)
}

/// The set of the function at a line.
fn select_line(alloc: Global, digits: &str, table: &FuncTable) -> Result<SiteSet, EditFault>
    requires { is_number digits.now ≡ true }
    ensures set { IfOk result (λ set. set ≡ selected table.now.functions (line (digits_value 10 digits.now))) }
    ensures size { IfOk result (λ set. length set ≡ length table.now.functions) }
    ensures ok { OnOk result (has_no_line (length table.now.functions) (digits_value 10 digits.now) ≡ false) }
    ensures refused { has_no_line (length table.now.functions) (digits_value 10 digits.now) ≡ true → result ≡ Err EditFault.Index }
    ensures err { IfErr result (IsCause (if has_no_line (length table.now.functions) (digits_value 10 digits.now) then Some EditFault.Index else None)) }
{
    let Some(f) = function_at_line(digits, table.len()) else {
        return Err(EditFault::Index);
    };
    let mut set = empty_set(alloc, table)?;
    set.add(f);
    Ok(set)
}

/// The set of the functions that a text without its mark selects.
fn select(alloc: Global, text: &str, table: &FuncTable) -> Result<SiteSet, EditFault>
    ensures set { IfOk result (λ set. set ≡ selected_by table.now.functions (form_of text.now)) }
    ensures size { IfOk result (λ set. length set ≡ length table.now.functions) }
    ensures ok { OnOk result (form_cause (length table.now.functions) (form_of text.now) ≡ None) }
    ensures command { form_cause (length table.now.functions) (form_of text.now) ≡ Some EditFault.Command → result ≡ Err EditFault.Command }
    ensures index { form_cause (length table.now.functions) (form_of text.now) ≡ Some EditFault.Index → result ≡ Err EditFault.Index }
    ensures err { IfErr result (IsCause (form_cause (length table.now.functions) (form_of text.now))) }
{
    match read_form(text) {
        None => Err(EditFault::Command),
        Some(TextForm::Line(digits)) => select_line(alloc, digits, table),
        Some(TextForm::Named(glob)) => Selector::by_name(alloc, glob)?.select(alloc, table),
        Some(
            TextForm::InModule {
                glob,
                negated,
                owner,
            },
        ) => Selector::by_module(alloc, glob, negated, owner)?.select(alloc, table),
    }
}

/// The edit of the empty text: a clear, unless the edit appends.
fn read_empty(alloc: Global, append: bool, table: &FuncTable) -> Result<Edit, EditFault>
    ensures edit { IfOk result (λ edit. plain_edit edit ≡ edit_of table.now.functions append []) }
    ensures size { IfOk result (λ edit. length edit.set ≡ length table.now.functions) }
    ensures ok { OnOk result (first_cause (length table.now.functions) append [] ≡ None) }
    ensures err { IfErr result (IsCause (first_cause (length table.now.functions) append [])) }
{
    if append {
        return Err(EditFault::Pattern);
    }
    let set = empty_set(alloc, table)?;
    Ok(Edit {
        append,
        remove: false,
        clear: true,
        set,
    })
}

/// The edit that a text makes of a set of functions of the table: of the set as it is with `append`
/// (`>>`), else of the empty set (`>`). The empty text clears the set. A text may select nothing.
///
/// A text is refused with `Command` exactly if it has a `:` and isn't of the form GLOB, `:mod:` and
/// MODULE; with `Index` exactly if it is digits alone, after an optional `!`, and the number is 0 or
/// above the table's length; with `Pattern` if a glob of it is refused, or if it is empty and
/// `append` holds. `NoMemory` says that memory ran out; it may come in the place of `Pattern`.
pub fn read_edit(
    alloc: Global,
    text: &str,
    append: bool,
    table: &FuncTable,
) -> Result<Edit, EditFault>
    ensures edit { IfOk result (λ edit. plain_edit edit ≡ edit_of table.now.functions append text.now) }
    ensures size { IfOk result (λ edit. length edit.set ≡ length table.now.functions) }
    ensures ok { OnOk result (first_cause (length table.now.functions) append text.now ≡ None) }
    ensures command { IsErrOf result EditFault.Command ↔ (first_cause (length table.now.functions) append text.now ≡ Some EditFault.Command) }
    ensures index { IsErrOf result EditFault.Index ↔ (first_cause (length table.now.functions) append text.now ≡ Some EditFault.Index) }
    ensures err { IfErr result (IsCause (first_cause (length table.now.functions) append text.now)) }
{
    if text.is_empty() {
        return read_empty(alloc, append, table);
    }
    let (remove, rest) = strip_mark(text);
    let set = select(alloc, rest, table)?;
    Ok(Edit {
        append,
        remove,
        clear: false,
        set,
    })
}
