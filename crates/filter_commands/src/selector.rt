//! Selecting functions by globs over names and modules.

ghost use Rattle.std.specs.Prelude.{◌≡◌, ◌<◌, map, length, false, IfOk, OnOk, IfErr, Some, None, if◌then◌else◌};
ghost use Rattle.std.specs.Option.{option_copied};
ghost use Rattle.glob_filter.specs.Items.{items_of};
ghost use Rattle.ft_base.specs.Marks.{holds};
ghost use Rattle.filter_commands.specs.Causes.{is_bad_glob, has_bad_glob, IsCause};
ghost use Rattle.filter_commands.specs.Forms.{named, in_module, glob_or_all};
ghost use Rattle.filter_commands.specs.Edits.{passes};
ghost use Rattle.filter_commands.specs.Meanings.{takes};

use crate::faults::EditFault;
use ft_base::FuncNo;
use func_table::FuncTable;
use glob_filter::{Pattern, PatternFault};
use site_set::SiteSet;
use std::alloc::Global;

/// What an empty glob before `:mod:` means.
const ALL: &str = "*";

/// Which functions are selected.
#[derive(Drop)]
pub enum Selector {
    /// Those whose names match.
    ByName(Pattern),
    /// Those whose names match and that are in a module whose name matches or, negated, aren't.
    ByModule {
        name: Pattern,
        negated: bool,
        owner: Pattern,
    },
}

/// Whether a function of this module passes.
fn passes(negated: bool, pattern: &Pattern, owner: Option<&str>) -> bool
    ensures { result ≡ passes negated pattern.now (option_copied owner.entry) }
{
    let within = match owner {
        Some(owner) => pattern.matches(owner),
        None => false,
    };
    if negated { !within } else { within }
}

impl Selector {
    /// Selects by a glob over names.
    pub fn by_name(alloc: Global, glob: &str) -> Result<Selector, EditFault>
        ensures selector { IfOk result (λ selector. selector ≡ Selector.ByName (items_of glob.now)) }
        ensures ok { OnOk result (has_bad_glob (Some (named glob.now)) ≡ false) }
        ensures err { IfErr result (IsCause (if has_bad_glob (Some (named glob.now)) then Some EditFault.Pattern else None)) }
    {
        Ok(Selector::ByName(read_glob(alloc, glob)?))
    }

    /// Selects by a glob over names, which means `*` if it is empty, and a glob over modules.
    pub fn by_module(
        alloc: Global,
        glob: &str,
        negated: bool,
        owner: &str,
    ) -> Result<Selector, EditFault>
        ensures selector { IfOk result (λ selector. selector ≡ Selector.ByModule (items_of (glob_or_all glob.now)) negated (items_of owner.now)) }
        ensures ok { OnOk result (has_bad_glob (Some (in_module glob.now negated owner.now)) ≡ false) }
        ensures err { IfErr result (IsCause (if has_bad_glob (Some (in_module glob.now negated owner.now)) then Some EditFault.Pattern else None)) }
    {
        let glob = if glob.is_empty() { ALL } else { glob };
        let name = read_glob(alloc, glob)?;
        let owner = read_glob(alloc, owner)?;
        Ok(Selector::ByModule {
            name,
            negated,
            owner,
        })
    }

    /// Whether a function of this name and module is selected.
    fn takes(&self, name: &str, owner: Option<&str>) -> bool
        ensures { result ≡ takes self.now (record { name = name.now; owner = option_copied owner.entry }) }
    {
        match self {
            Selector::ByName(pattern) => pattern.matches(name),
            Selector::ByModule {
                name: pattern,
                negated,
                owner: module,
            } => pattern.matches(name) && passes(*negated, module, owner),
        }
    }

    /// Whether the function of this number is selected.
    fn takes_function(&self, table: &FuncTable, f: FuncNo) -> bool
        requires { f.0 < length table.now.functions }
        ensures { result ≡ holds (map (takes self.now) table.now.functions) f.0 }
    {
        self.takes(table.name(f), table.module(f))
    }

    /// The set of the functions that are selected. The error says that memory ran out.
    pub fn select(&self, alloc: Global, table: &FuncTable) -> Result<SiteSet, EditFault>
        ensures set { IfOk result (λ set. set ≡ map (takes self.now) table.now.functions) }
        ensures size { IfOk result (λ set. length set ≡ length table.now.functions) }
        ensures err { IfErr result (λ fault. fault ≡ EditFault.NoMemory) }
    {
        let size = table.len();
        let mut set = SiteSet::empty(alloc, size).map_err(|_| EditFault::NoMemory)?;
        for f in 0..size {
            if self.takes_function(table, FuncNo(f)) {
                set.add(f);
            }
        }
        Ok(set)
    }
}

/// The pattern of a glob. `Pattern` exactly if it is refused.
fn read_glob(alloc: Global, text: &str) -> Result<Pattern, EditFault>
    ensures items { IfOk result (λ pattern. pattern ≡ items_of text.now) }
    ensures ok { OnOk result (is_bad_glob text.now ≡ false) }
    ensures err { IfErr result (IsCause (if is_bad_glob text.now then Some EditFault.Pattern else None)) }
{
    match Pattern::read(alloc, text) {
        Ok(pattern) => Ok(pattern),
        Err(PatternFault::NoMemory) => Err(EditFault::NoMemory),
        Err(PatternFault::Empty | PatternFault::Backslash | PatternFault::TooLong) => {
            Err(EditFault::Pattern)
        }
    }
}
