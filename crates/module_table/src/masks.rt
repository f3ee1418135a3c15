//! Masks: the notrace set that the desk keeps for a user is the user's own set and the hidden functions.

ghost use Rattle.std.specs.Prelude.{◌≡◌, ℕ, ◌<◌, ◌≤◌, ◌^◌, ◌++◌, ◌∷◌, [], length, map, replicate, is_some, All, IfOk, IfSome};
ghost use Rattle.ft_base.specs.Marks.{empty};
ghost use Rattle.ft_base.specs.Desk.{edited};
ghost use Rattle.site_set.specs.Edits.{plain_edit};
ghost use Rattle.module_table.specs.Made.{mask_command, mask_commands, opening_commands};

use ft_base::{NoMemory, UserNo};
use ft_desk::Command;
use site_set::{Edit, SiteSet};
use std::alloc::Global;
use user_specs::Spec;

/// The masks of the users with these own sets, in order. The error says that memory ran out.
pub(crate) fn masks(
    alloc: Global,
    own: &[SiteSet],
    hidden: &SiteSet,
) -> Result<Vec<Command>, NoMemory>
    requires few { length own.now < 2 ^ 32 }
    requires sizes { All (λ set. length set ≡ length hidden.now) own.now }
    ensures { IfOk result (λ v. v.items ≡ mask_commands 0 own.now hidden.now) }
{
    let mut commands = Vec::with_capacity(alloc, own.len()).map_err(|_| NoMemory)?;
    for (u, set) in own.iter().enumerate() {
        commands.push_reserved(mask(UserNo(u as u32), set, hidden)?);
    }
    Ok(commands)
}

/// The masks of the users with these own sets, and the command that sets the graph depth. The error says
/// that memory ran out.
pub(crate) fn moving(
    alloc: Global,
    own: &[SiteSet],
    hidden: &SiteSet,
    depth: u32,
) -> Result<Vec<Command>, NoMemory>
    requires few { length own.now < 2 ^ 32 }
    requires sizes { All (λ set. length set ≡ length hidden.now) own.now }
    ensures { IfOk result (λ v. v.items ≡ mask_commands 0 own.now hidden.now ++ Command.MaxDepth depth ∷ []) }
{
    let mut commands = masks(alloc, own, hidden)?;
    commands
        .push(Command::MaxDepth(depth))
        .map_err(|_| NoMemory)?;
    Ok(commands)
}

/// The command that leaves a user with its own set and the hidden functions. The error says that memory
/// ran out.
pub(crate) fn mask(user: UserNo, own: &SiteSet, hidden: &SiteSet) -> Result<Command, NoMemory>
    requires { length own.now ≡ length hidden.now }
    ensures { IfOk result (λ command. command ≡ mask_command user.0 own.now hidden.now) }
{
    let mut set = own.copy().map_err(|_| NoMemory)?;
    set.unite(hidden);
    // An edit that selects nothing would be refused, so an empty set is a clear.
    let clear = set.is_empty();
    let edit = Edit {
        append: false,
        remove: false,
        clear,
        set,
    };
    Ok(Command::Notrace(user, edit))
}

/// A set after an edit. The error says that memory ran out.
pub(crate) fn edited_set(set: &SiteSet, edit: &Edit) -> Result<SiteSet, NoMemory>
    requires { length edit.now.set ≡ length set.now }
    ensures { IfOk result (λ new. new ≡ edited (length set.now) set.now (plain_edit edit.now)) }
{
    let mut new = set.copy().map_err(|_| NoMemory)?;
    if edit.clear || !edit.append {
        new.clear();
    }
    if edit.clear {
        return Ok(new);
    }
    if edit.remove {
        new.subtract(&edit.set);
    } else {
        new.unite(&edit.set);
    }
    Ok(new)
}

/// Empty sets of functions below `funcs`, one for each of so many users. The error says that memory ran
/// out.
pub(crate) fn no_sets(alloc: Global, users: u32, funcs: u32) -> Result<Vec<SiteSet>, NoMemory>
    ensures { IfOk result (λ v. v.items ≡ replicate users (empty funcs)) }
{
    let mut sets = Vec::with_capacity(alloc, users as usize).map_err(|_| NoMemory)?;
    for _user in 0..users {
        sets.push_reserved(SiteSet::empty(alloc, funcs).map_err(|_| NoMemory)?);
    }
    Ok(sets)
}

/// Of each user whether it replaces functions. The error says that memory ran out.
pub(crate) fn modifiers(alloc: Global, specs: &[Spec]) -> Result<Vec<bool>, NoMemory>
    ensures { IfOk result (λ v. v.items ≡ map (λ s. is_some s.ipmodify) specs.now) }
{
    let mut modifiers = Vec::with_capacity(alloc, specs.len()).map_err(|_| NoMemory)?;
    for spec in specs {
        modifiers.push_reserved(spec.ipmodify.is_some());
    }
    Ok(modifiers)
}

/// The masks with which control opens if these functions are hidden at first, or nothing. The error says
/// that memory ran out.
pub(crate) fn opening(
    alloc: Global,
    users: u32,
    funcs: u32,
    first: &Option<SiteSet>,
) -> Result<Vec<Command>, NoMemory>
    requires { IfSome first.now (λ hidden. length hidden ≡ funcs) }
    ensures { IfOk result (λ v. v.items ≡ opening_commands users funcs first.now) }
{
    match first {
        None => Ok(Vec::new(alloc)),
        Some(hidden) => {
            let own = no_sets(alloc, users, funcs)?;
            masks(alloc, own.as_slice(), hidden)
        }
    }
}
