//! What is kept of a history while it is gone through.

ghost use Rattle.std.specs.Prelude.{◌≡◌, ℕ, [], ◌+◌, ◌<◌, ◌≤◌, ◌^◌, map, filter, length, slice_set, slice_index_or, IfOk, OnOk, IsSome, IfSome, Some, if◌then◌else◌};
ghost use Rattle.std.specs.List.{range_with_len};
ghost use Rattle.ft_base.specs.Same.{same_call};
ghost use Rattle.ft_base.specs.declared.number.CallNo.{CallNo};
ghost use Rattle.func_profile.specs.Rows.{row_of, has_hit, HasRows};

use crate::profile::ProfileRow;
use crate::table::Table;
use ft_base::{CallNo, FuncNo, Item, NoMemory, UserNo};
use ft_hist::History;
use std::alloc::{AllocError, Global};
use std::collections::HashMap;

/// The function of each call that was entered, by its task and its number, and a row for each
/// function.
#[derive(Drop)]
pub(crate) struct Tally {
    functions: HashMap<(u32, u32), FuncNo>,
    table: Table,
}

impl Tally {
    ghost use Rattle.ft_hist.specs.Telling.{past_at};
    ghost use Rattle.func_profile.specs.Tallies.{IsTally, function_at, row_at, with_hit, with_time};

    /// No call, and rows without hits for functions below `funcs`.
    pub(crate) fn new(alloc: Global, funcs: u32) -> Result<Tally, NoMemory>
        ensures { IfOk result (λ t. (u : ℕ) → IsTally u funcs [] t) }
    {
        let table = Table::new(alloc, funcs)?;
        Ok(Tally {
            functions: HashMap::new(alloc),
            table,
        })
    }

    /// Takes in the item at a place, after those before it.
    pub(crate) fn note(
        &mut self,
        history: &History,
        place: u32,
        user: UserNo,
    ) -> Result<(), NoMemory>
        requires place { place < length history.now.items }
        requires size { length history.now.items < 2 ^ 32 }
        requires calls { HasRows (length self.old.table.rows.items) history.now.items }
        requires so_far { IsTally user.0 (length self.old.table.rows.items) (past_at place history.now.items) self.old }
        ensures { OnOk result (IsTally user.0 (length self.old.table.rows.items) (past_at (place + 1) history.now.items) self.new) }
    {
        match history.item(place) {
            Item::Enter { call, func, .. } => self.enter(*call, *func),
            Item::Back { call, user: whose } => {
                if *whose == user {
                    let func = self.function(*call);
                    self.table.add_hit(func);
                }
                Ok(())
            }
            Item::Exit {
                call,
                user: whose,
                entry,
            } => {
                if *whose == user {
                    let func = self.function(*call);
                    self.table.add_time(func, place - *entry);
                }
                Ok(())
            }
            _ => Ok(()),
        }
    }

    /// The rows with a hit.
    pub(crate) fn into_rows(self) -> Vec<ProfileRow>
        ensures { result.items ≡ filter has_hit self.table.rows.items }
    {
        self.table.into_rows()
    }

    /// Keeps the function of a call.
    fn enter(&mut self, call: CallNo, func: FuncNo) -> Result<(), NoMemory>
        ensures functions { OnOk result ((c : CallNo) → function_at self.new c
            ≡ (if same_call call c then Some func else function_at self.old c)) }
        ensures table { self.new.table ≡ self.old.table }
    {
        match self.functions.insert((call.task.0, call.n), func) {
            Ok(_) => Ok(()),
            Err(_) => Err(NoMemory),
        }
    }

    /// The function of a call that was entered.
    fn function(&self, call: CallNo) -> FuncNo
        requires { IsSome (function_at self.now call) }
        ensures { function_at self.now call ≡ Some result }
    {
        match self.functions.get(&(call.task.0, call.n)) {
            Some(func) => *func,
            None => unreachable!(),
        }
    }
}
