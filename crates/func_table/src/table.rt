//! Functions by number and by name.

ghost use Rattle.std.specs.Prelude.{◌≡◌, ◌≤◌, ◌<◌, ◌==◌, [], ◌↔◌, length, slice_get, option_map, true, IsSome, IsNone, IsErrOf, IfOk, IfSome, OnErr, Some, string_bytes, Contains};
ghost use Rattle.std.specs.Option.{option_copied};
ghost use Rattle.ft_base.specs.Address.{function_at};
ghost use Rattle.ft_base.specs.Name.{is_name_text};
ghost use Rattle.func_table.specs.Rows.{names_of, modules_of, number_of, is_name_or_none, IsTable, IsAdded};

use crate::faults::TableFault;
use ft_base::limits::FUNCS;
use ft_base::{FuncNo, function_address};
use indexmap::IndexMap;
use std::alloc::{AllocError, Global};
use std::marker::Model;

/// Functions in the order in which they were added, which numbers them from 0. Contracts see the
/// list of the functions, and the limit.
#[derive(Drop)]
pub struct FuncTable {
    functions: IndexMap<String, Option<String>>,
    limit: u32,
}

impl Model for FuncTable {
    ghost use Rattle.func_table.specs.Rows.{Table, IsTable};
    ghost use Rattle.func_table.specs.TableFields.{table_of};

    ghost Value = { Table };

    ghost view = { table_of };

    ghost invariant = { λ t. IsTable (table_of t) };
}

impl FuncTable {
    /// The empty table, which takes at most `limit` functions. It takes no memory.
    pub fn new(alloc: Global, limit: u32) -> FuncTable
        requires { limit ≤ FUNCS }
        ensures { result ≡ record { functions = []; limit = limit } }
    {
        FuncTable {
            functions: IndexMap::new(alloc),
            limit,
        }
    }

    /// How many functions there are.
    pub fn len(&self) -> u32
        ensures value { result ≡ length self.now.functions }
        ensures table { IsTable self.now }
    {
        self.functions.len() as u32
    }

    /// Whether there is no function.
    pub fn is_empty(&self) -> bool
        ensures { result ≡ (length self.now.functions == 0) }
    {
        self.functions.is_empty()
    }

    /// The number of the function of this name. `None` exactly if no function has it.
    pub fn find(&self, name: &str) -> Option<FuncNo>
        ensures value { option_map (λ f. f.0) result ≡ number_of self.now name.now }
        ensures some { IfSome result (λ f. slice_get (names_of self.now) f.0 ≡ Some name.now) }
        ensures none { IsNone result ↔ ¬ Contains (names_of self.now) name.now }
    {
        match self.functions.get_index_of(name) {
            Some(at) => Some(FuncNo(at as u32)),
            None => None,
        }
    }

    /// Adds a function, in the module `owner` if it has one, and gives its number, which is the next
    /// one. A name that the table has is refused as `Duplicate`; a new one is refused as `Full` if
    /// the table has as many functions as its limit. After a refusal the table is as before.
    pub fn add(
        &mut self,
        alloc: Global,
        name: &str,
        owner: Option<&str>,
    ) -> Result<FuncNo, TableFault>
        requires name { is_name_text name.now ≡ true }
        requires owner { is_name_or_none (option_copied owner) ≡ true }
        ensures added { IfOk result (λ f. IsAdded self.old self.new (record { name = name.now; owner = option_copied owner.entry }) f.0) }
        ensures duplicate { IsErrOf result TableFault.Duplicate ↔ IsSome (number_of self.old name.now) }
        ensures full { IsErrOf result TableFault.Full
            ↔ (IsNone (number_of self.old name.now) × (length self.old.functions ≡ self.old.limit)) }
        ensures err { OnErr result (self.new ≡ self.old) }
    {
        if self.find(name).is_some() {
            return Err(TableFault::Duplicate);
        }
        let number = self.len();
        if number >= self.limit {
            return Err(TableFault::Full);
        }
        let key = String::from_str(alloc, name).map_err(|_| TableFault::NoMemory)?;
        let value = owned(alloc, owner).map_err(|_| TableFault::NoMemory)?;
        self.functions
            .insert(key, value)
            .map_err(|_| TableFault::NoMemory)?;
        Ok(FuncNo(number))
    }

    /// The name of a function of the table.
    pub fn name(&self, f: FuncNo) -> &str
        requires { f.0 < length self.now.functions }
        ensures value { slice_get (names_of self.now) f.0 ≡ Some result.now }
        ensures number { number_of self.now result.now ≡ Some f.0 }
    {
        match self.functions.get_index(f.0 as usize) {
            Some((name, _)) => name.as_str(),
            None => unreachable!(),
        }
    }

    /// The module of a function of the table, if it has one.
    pub fn module(&self, f: FuncNo) -> Option<&str>
        requires { f.0 < length self.now.functions }
        ensures { slice_get (modules_of self.now) f.0 ≡ Some (option_copied result) }
    {
        match self.functions.get_index(f.0 as usize) {
            Some((_, Some(module))) => Some(module.as_str()),
            Some((_, None)) => None,
            None => unreachable!(),
        }
    }

    /// The address of a function, at which its call site begins.
    pub fn ip(f: FuncNo) -> u32
        requires { f.0 < FUNCS }
        ensures { result ≡ function_at f.0 }
    {
        function_address(f)
    }
}

/// A copy of the text, if there is one.
fn owned(alloc: Global, text: Option<&str>) -> Result<Option<String>, AllocError>
    ensures { IfOk result (λ o. option_map string_bytes o ≡ option_copied text.entry) }
{
    match text {
        Some(text) => Ok(Some(String::from_str(alloc, text)?)),
        None => Ok(None),
    }
}
