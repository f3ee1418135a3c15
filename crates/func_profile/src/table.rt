//! A row for each function.

ghost use Rattle.std.specs.Prelude.{◌≡◌, ℕ, [], ◌+◌, ◌<◌, ◌^◌, map, filter, slice_set, IfOk};
ghost use Rattle.std.specs.List.{range_with_len};
ghost use Rattle.func_profile.specs.Rows.{row_of, has_hit};

use crate::profile::ProfileRow;
use ft_base::{FuncNo, NoMemory};
use std::alloc::{AllocError, Global};

/// A row for each of the first functions: what one user's callbacks so far come to. A function that has
/// no row is left out.
#[derive(Drop)]
pub struct Table {
    rows: Vec<ProfileRow>,
}

impl Table {
    ghost use Rattle.func_profile.specs.Tallies.{IsTable, row_at, with_hit, with_time};

    /// Rows without hits for the functions below `funcs`. The error says that memory ran out.
    pub fn new(alloc: Global, funcs: u32) -> Result<Table, NoMemory>
        ensures { IfOk result (λ table. (u : ℕ) → IsTable u funcs [] table) }
    {
        match no_hits(alloc, funcs) {
            Ok(rows) => Ok(Table { rows }),
            Err(_) => Err(NoMemory),
        }
    }

    /// The rows, those without hits too.
    pub fn rows(&self) -> &[ProfileRow]
        ensures { result.now ≡ self.now.rows.items }
    {
        self.rows.as_slice()
    }

    /// The rows with a hit.
    pub(crate) fn into_rows(self) -> Vec<ProfileRow>
        ensures { result.items ≡ filter has_hit self.rows.items }
    {
        let mut rows = self.rows;
        rows.retain(|row| row.hits > 0);
        rows
    }

    /// Counts a hit of a function.
    pub fn add_hit(&mut self, func: FuncNo)
        requires { (row_at self.old.rows.items func.0).hits + 1 < 2 ^ 32 }
        ensures { self.new.rows.items ≡ slice_set self.old.rows.items func.0 (with_hit (row_at self.old.rows.items func.0)) }
    {
        if let Some(row) = self.rows.get_mut(func.0 as usize) {
            row.hits += 1;
        }
    }

    /// Adds to the time of a function.
    pub fn add_time(&mut self, func: FuncNo, time: u32)
        requires { (row_at self.old.rows.items func.0).time + time < 2 ^ 64 }
        ensures { self.new.rows.items ≡ slice_set self.old.rows.items func.0 (with_time time (row_at self.old.rows.items func.0)) }
    {
        if let Some(row) = self.rows.get_mut(func.0 as usize) {
            row.time += u64::from(time);
        }
    }
}

/// Rows without hits for the functions below `funcs`.
fn no_hits(alloc: Global, funcs: u32) -> Result<Vec<ProfileRow>, AllocError>
    ensures { IfOk result (λ rows. rows.items ≡ map (row_of 0 []) (range_with_len 0 funcs)) }
{
    (0..funcs)
        .map(|f| ProfileRow {
            func: FuncNo(f),
            hits: 0,
            time: 0,
        })
        .collect(alloc)
}
