//! The names of modules.

ghost use Rattle.std.specs.Prelude.{◌≡◌, ◌==◌, ℕ, ◌+◌, ◌<◌, ◌≤◌, length, map, take, Some, IfOk, OnOk, slice_get, string_bytes};
ghost use Rattle.ft_base.specs.declared.limits.TheConstants.{FUNCS};
ghost use Rattle.module_table.specs.Made.{noted};
ghost use Rattle.func_table.specs.Modules.{modules_in, number_among};

use ft_base::{FuncNo, NoMemory};
use func_table::FuncTable;
use indexmap::IndexSet;
use std::alloc::Global;
use std::marker::Model;

/// The names of the modules of a table of functions, in the order of the modules' first functions, which
/// numbers them from 0.
#[derive(Drop)]
pub struct ModuleNames {
    names: IndexSet<String>,
}

impl Model for ModuleNames {
    ghost use Rattle.std.specs.Prelude.{ℕ, List};
    ghost use Rattle.module_table.specs.Names.{names_of, AreFew};

    ghost Value = { List (List ℕ) };

    ghost view = { names_of };

    ghost invariant = { AreFew };
}

impl ModuleNames {
    /// The names of the modules of these functions. The error says that memory ran out.
    pub fn new(alloc: Global, table: &FuncTable) -> Result<ModuleNames, NoMemory>
        ensures { IfOk result (λ names. names ≡ modules_in table.now.functions) }
    {
        let mut names = IndexSet::new(alloc);
        for f in 0..table.len() {
            note_module(alloc, &mut names, table, FuncNo(f))?;
        }
        Ok(ModuleNames { names })
    }

    /// How many modules there are.
    pub fn len(&self) -> u32
        ensures value { result ≡ length self.now }
        ensures few { length self.now ≤ FUNCS }
    {
        self.names.len() as u32
    }

    /// Whether there is no module.
    pub fn is_empty(&self) -> bool
        ensures { result ≡ (length self.now == 0) }
    {
        self.names.is_empty()
    }

    /// The number of the module of this name. `None` exactly if no module has it.
    pub fn find(&self, name: &str) -> Option<u32>
        ensures { result ≡ number_among self.now (Some name.now) }
    {
        match self.names.get_index_of(name) {
            Some(at) => Some(at as u32),
            None => None,
        }
    }

    /// The name of a module.
    pub fn name(&self, number: u32) -> &str
        requires { number < length self.now }
        ensures { slice_get self.now number ≡ Some result.now }
    {
        match self.names.get_index(number as usize) {
            Some(name) => name.as_str(),
            None => unreachable!(),
        }
    }
}

/// Adds the module of the next function at the end, if it lies in one that isn't there.
fn note_module(
    alloc: Global,
    names: &mut IndexSet<String>,
    table: &FuncTable,
    f: FuncNo,
) -> Result<(), NoMemory>
    requires function { f.0 < length table.now.functions }
    requires names { map string_bytes names.old.keys ≡ modules_in (take f.0 table.now.functions) }
    ensures { OnOk result (map string_bytes names.new.keys ≡ modules_in (take (f.0 + 1) table.now.functions)) }
{
    match table.module(f) {
        Some(name) => note(alloc, names, name),
        None => Ok(()),
    }
}

/// Adds a name at the end, if it isn't there.
fn note(alloc: Global, names: &mut IndexSet<String>, name: &str) -> Result<(), NoMemory>
    ensures { OnOk result (map string_bytes names.new.keys ≡ noted (map string_bytes names.old.keys) name.now) }
{
    if names.contains(name) {
        return Ok(());
    }
    let name = String::from_str(alloc, name).map_err(|_| NoMemory)?;
    names.insert(name).map_err(|_| NoMemory)?;
    Ok(())
}
