//! Calls never reach code that isn't there. A call is *covered* if the module of
//! its function is loaded at each number of commands at which the script lets the call be under way:
//! it says so of the script alone, line by line. Here are the laws that say so of every legal
//! history, whatever the order in which its actors made it. They are definitions and laws; there is
//! no code.
//!
//! A history is legal for the job whose commands load and unload the modules. Nothing is asked of
//! the job besides what the clauses name: its calls may lack their returns, and the lines of its
//! modules may come in any order.

ghost use Rattle.std.specs.Prelude.{◌≡◌, ℕ, true, false, List};
ghost use Rattle.ft_base.specs.Job.{Job as PlainJob, LinePlan};
ghost use Rattle.ft_base.specs.declared.item.Item.{Item};
ghost use Rattle.ft_hist.specs.Rules.{IsLegal};
ghost use Rattle.module_coverage.specs.Covered.{AreCovered};
ghost use Rattle.module_coverage.specs.Loaded.{is_changing, is_loaded};
ghost use Rattle.module_coverage.specs.Apart.{AreActsApart, AreReplacementsApart};
ghost use Rattle.module_coverage.specs.Found.{KeepsLoaded, RunsLoaded};

/// Where the script's calls are covered, and no user's act calls a function of a module that comes
/// and goes, each item of a call finds the module of its function loaded, after the commands that
/// have returned there and after those that have begun.
pub fn calls_find_their_modules()
    ensures { (job : PlainJob) (items : List Item) → AreCovered job → AreActsApart job → IsLegal job items → KeepsLoaded job items }
{}

/// And so does each body, where no user puts a function of such a module in another's place: the
/// function that runs is there, whether it is the one that was called or a replacement.
pub fn bodies_find_their_modules()
    ensures { (job : PlainJob) (items : List Item) → AreCovered job → AreActsApart job → AreReplacementsApart job → IsLegal job items → RunsLoaded job items }
{}

/// A module that no line names is loaded after each command.
pub fn modules_that_no_line_names_stay()
    ensures { (lines : LinePlan) (m k : ℕ) → is_changing lines m ≡ false → is_loaded lines m k ≡ true }
{}
