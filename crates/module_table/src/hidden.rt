//! The functions that are hidden, and what would stand in the way if others were.

ghost use Rattle.std.specs.Prelude.{◌≡◌, ℕ, ◌<◌, ◌≤◌, ◌^◌, length, set, get_or, true, IfOk};
ghost use Rattle.ft_base.specs.Marks.{holds};
ghost use Rattle.module_table.specs.Lines.{first_hidden, hidden, is_hidden};

use ft_base::NoMemory;
use site_set::SiteSet;
use std::alloc::Global;

/// The functions of the modules that aren't loaded. The error says that memory ran out.
pub(crate) fn hidden_functions(
    alloc: Global,
    owners: &[Option<u32>],
    loaded: &[bool],
) -> Result<SiteSet, NoMemory>
    requires { length owners.now < 2 ^ 32 }
    ensures { IfOk result (λ s. s ≡ hidden owners.now loaded.now) }
{
    let mut set = SiteSet::empty(alloc, owners.len() as u32).map_err(|_| NoMemory)?;
    for f in 0..owners.len() as u32 {
        if is_hidden_at(owners, loaded, f) {
            set.add(f);
        }
    }
    Ok(set)
}

/// Whether the function of this number is hidden.
#[tactic(auto, using(crate::proofs::HiddenLaws::holds_hidden))]
fn is_hidden_at(owners: &[Option<u32>], loaded: &[bool], f: u32) -> bool
    requires { f < length owners.now }
    ensures { result ≡ holds (hidden owners.now loaded.now) f }
{
    is_hidden(loaded, owners[f as usize])
}

/// Whether a function of this module, if it lies in one, is hidden.
fn is_hidden(loaded: &[bool], owner: Option<u32>) -> bool
    ensures { result ≡ is_hidden loaded.now owner }
{
    match owner {
        None => false,
        Some(m) => !is_loaded(loaded, m),
    }
}

/// Whether the module is loaded. One that there isn't hides nothing.
pub(crate) fn is_loaded(loaded: &[bool], m: u32) -> bool
    ensures { result ≡ get_or loaded.now m true }
{
    match loaded.get(m as usize) {
        Some(is) => *is,
        None => true,
    }
}

/// Which modules are loaded once this one is or isn't. The error says that memory ran out.
pub(crate) fn with_module(loaded: &Vec<bool>, m: u32, is: bool) -> Result<Vec<bool>, NoMemory>
    requires { m < length loaded.now.items }
    ensures { IfOk result (λ v. v.items ≡ set loaded.now.items m is) }
{
    let mut changed = loaded.clone().map_err(|_| NoMemory)?;
    changed[m as usize] = is;
    Ok(changed)
}

/// The functions that are hidden at first, if a module is absent. The error says that memory ran out.
pub(crate) fn first_hidden(
    alloc: Global,
    owners: &[Option<u32>],
    loaded: &[bool],
    absent: &[u32],
) -> Result<Option<SiteSet>, NoMemory>
    requires { length owners.now < 2 ^ 32 }
    ensures { IfOk result (λ first. first ≡ first_hidden owners.now loaded.now absent.now) }
{
    if absent.is_empty() {
        return Ok(None);
    }
    Ok(Some(hidden_functions(alloc, owners, loaded)?))
}
