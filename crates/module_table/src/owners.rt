//! The module of each function, and which modules are loaded at first.

ghost use Rattle.std.specs.Prelude.{◌≡◌, ℕ, ◌<◌, ◌≤◌, ◌^◌, length, map, get_or, None, All, IfOk};
ghost use Rattle.func_table.specs.Modules.{number_among};
ghost use Rattle.module_table.specs.Lines.{loaded_at_first};

use crate::names::ModuleNames;
use ft_base::{FuncNo, NoMemory};
use func_table::FuncTable;
use std::alloc::Global;

/// The number of the module of each function, if it lies in one. The error says that memory ran out.
pub fn owners_of(
    alloc: Global,
    table: &FuncTable,
    names: &ModuleNames,
) -> Result<Vec<Option<u32>>, NoMemory>
    ensures { IfOk result (λ v. v.items ≡ map (λ f. number_among names.now f.owner) table.now.functions) }
{
    let mut owners = Vec::with_capacity(alloc, table.len() as usize).map_err(|_| NoMemory)?;
    for f in 0..table.len() {
        owners.push_reserved(owner(table, names, FuncNo(f)));
    }
    Ok(owners)
}

/// The number of the module of a function, if it lies in one.
fn owner(table: &FuncTable, names: &ModuleNames, f: FuncNo) -> Option<u32>
    requires { f.0 < length table.now.functions }
    ensures { result ≡ get_or (map (λ f. number_among names.now f.owner) table.now.functions) f.0 None }
{
    match table.module(f) {
        Some(name) => names.find(name),
        None => None,
    }
}

/// Which of so many modules are loaded at first: those that aren't absent. The error says that memory
/// ran out.
pub(crate) fn loaded_at_first(
    alloc: Global,
    modules: u32,
    absent: &[u32],
) -> Result<Vec<bool>, NoMemory>
    requires { All (λ m. m < modules) absent.now }
    ensures { IfOk result (λ v. v.items ≡ loaded_at_first modules absent.now) }
{
    let mut loaded = vec![in alloc; true; modules as usize].map_err(|_| NoMemory)?;
    for m in absent {
        loaded[*m as usize] = false;
    }
    Ok(loaded)
}
