//! The rows of all functions.

ghost use Rattle.std.specs.Prelude.{◌≡◌, ◌≢◌, ℕ, ◌<◌, true, length, replicate, IfOk, if◌then◌else◌};
ghost use Rattle.ft_base.specs.Marks.{holds};
ghost use Rattle.site_counts.specs.Rows.{no_users, row_of, with_user, without_user, at_members, HasRoom, HasUser};

use crate::members::{change_members, change_one};
use crate::rows::{Change, Row};
use ft_base::NoMemory;
use site_set::SiteSet;
use std::alloc::Global;
use std::marker::Model;

/// A row for each function. Contracts see the rows, in the order of the functions.
#[derive(Drop)]
pub struct Counts {
    rows: Vec<Row>,
}

impl Model for Counts {
    ghost use Rattle.std.specs.Prelude.{List};
    ghost use Rattle.site_counts.specs.declared.rows.Row.{Row};

    ghost Value = { List Row };

    ghost view = { λ c. c.rows.items };
}

impl Counts {
    /// Rows without users, for functions below `size`. The error says that memory ran out.
    pub fn new(alloc: Global, size: u32) -> Result<Counts, NoMemory>
        ensures rows { IfOk result (λ counts. counts ≡ replicate size no_users) }
        ensures each { IfOk result (λ counts. (f : ℕ) → row_of counts f ≡ no_users) }
        ensures size { IfOk result (λ counts. length counts ≡ size) }
    {
        let rows = vec![in alloc; Row::new(); size as usize].map_err(|_| NoMemory)?;
        Ok(Counts { rows })
    }

    /// Adds a user at each function of the set: the count goes up by 1, and so does the count of each
    /// flag that the user has.
    pub fn add_user(&mut self, on: &SiteSet, regs: bool, ipmodify: bool)
        requires size { length on.now ≡ length self.old }
        requires room { (f : ℕ) → holds on.now f ≡ true → HasRoom (row_of self.old f) }
        ensures rows { self.new ≡ at_members on.now (with_user regs ipmodify) self.old }
        ensures each { (f : ℕ) → row_of self.new f ≡ (if holds on.now f
            then with_user regs ipmodify (row_of self.old f) else row_of self.old f) }
        ensures size { length self.new ≡ length self.old }
    {
        change_members(self.rows.as_mut_slice(), on, Change::Add { regs, ipmodify });
    }

    /// Drops a user at each function of the set: the count goes down by 1, and so does the count of
    /// each flag that the user has.
    pub fn drop_user(&mut self, on: &SiteSet, regs: bool, ipmodify: bool)
        requires size { length on.now ≡ length self.old }
        requires there { (f : ℕ) → holds on.now f ≡ true → HasUser regs ipmodify (row_of self.old f) }
        ensures rows { self.new ≡ at_members on.now (without_user regs ipmodify) self.old }
        ensures each { (f : ℕ) → row_of self.new f ≡ (if holds on.now f
            then without_user regs ipmodify (row_of self.old f) else row_of self.old f) }
        ensures size { length self.new ≡ length self.old }
    {
        change_members(
            self.rows.as_mut_slice(),
            on,
            Change::Drop { regs, ipmodify },
        );
    }

    /// Adds a user at one function, as `add_user` does at each of a set.
    pub fn add_at(&mut self, f: u32, regs: bool, ipmodify: bool)
        requires within { f < length self.old }
        requires room { HasRoom (row_of self.old f) }
        ensures row { row_of self.new f ≡ with_user regs ipmodify (row_of self.old f) }
        ensures others { (g : ℕ) → g ≢ f → row_of self.new g ≡ row_of self.old g }
        ensures size { length self.new ≡ length self.old }
    {
        change_one(self.rows.as_mut_slice(), f, Change::Add { regs, ipmodify });
    }

    /// Drops a user at one function, as `drop_user` does at each of a set.
    pub fn drop_at(&mut self, f: u32, regs: bool, ipmodify: bool)
        requires within { f < length self.old }
        requires there { HasUser regs ipmodify (row_of self.old f) }
        ensures row { row_of self.new f ≡ without_user regs ipmodify (row_of self.old f) }
        ensures others { (g : ℕ) → g ≢ f → row_of self.new g ≡ row_of self.old g }
        ensures size { length self.new ≡ length self.old }
    {
        change_one(self.rows.as_mut_slice(), f, Change::Drop { regs, ipmodify });
    }

    /// The row of the function `f`.
    pub fn row(&self, f: u32) -> Row
        requires { f < length self.now }
        ensures { result ≡ row_of self.now f }
    {
        self.rows[f as usize]
    }
}
