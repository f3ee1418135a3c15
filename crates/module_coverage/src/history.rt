//! The changes of each module, in order.

ghost use Rattle.std.specs.Prelude.{◌≡◌, ◌≤◌, ◌<◌, ◌&&◌, ℕ, not, nat_lt, true, false, [], ◌++◌, length, map, filter, get_or, replicate, Some, IfOk, OnOk};
ghost use Rattle.std.specs.List.Sorted.{IsNonDecreasingBy};
ghost use Rattle.script_waits.specs.Greedy.{IsLeast};
ghost use Rattle.module_coverage.specs.Plan.{owner_in, is_of, loaded_by};
ghost use Rattle.module_coverage.specs.Histories.{absence, lists, with_change};

use crate::change::Change;
use std::alloc::{AllocError, Global};

/// A module that isn't loaded at first is unloaded before the first command.
fn absence(owner: u32) -> Change
    ensures { result ≡ absence owner }
{
    Change {
        module: owner,
        load: false,
        at: 0,
    }
}

/// The changes of the modules that aren't loaded at first.
fn absences(alloc: Global, absent: &[u32]) -> Result<Vec<Change>, AllocError>
    ensures { IfOk result (λ v. v.items ≡ map absence absent.now) }
{
    absent.iter().map(|owner| absence(*owner)).collect(alloc)
}

/// All changes, those of modules that aren't loaded at first above all others.
pub fn story(alloc: Global, absent: &[u32], changes: &[Change]) -> Result<Vec<Change>, AllocError>
    ensures { IfOk result (λ v. v.items ≡ map absence absent.now ++ changes.now) }
{
    let mut story = absences(alloc, absent)?;
    story.extend_from_slice(changes)?;
    Ok(story)
}

/// The number after that of a function's module; 0 if it lies in none.
fn end_of(owner: Option<u32>) -> usize
    ensures above { (m : ℕ) → owner ≡ Some m → m < result }
    ensures least { (k : ℕ) → ((m : ℕ) → owner ≡ Some m → m < k) → result ≤ k }
{
    match owner {
        Some(owner) => owner as usize + 1,
        None => 0,
    }
}

/// The least number above those of the modules of all functions.
pub fn modules_of(owners: &[Option<u32>]) -> usize
    ensures above { (f m : ℕ) → owner_in owners.now f ≡ Some m → m < result }
    ensures least { (k : ℕ) → ((f m : ℕ) → owner_in owners.now f ≡ Some m → m < k) → result ≤ k }
{
    let mut end: usize = 0;
    for owner in owners.iter() {
        let own = end_of(*owner);
        end = end.max(own);
    }
    end
}

/// So many empty histories.
fn empty_histories(alloc: Global, count: usize) -> Result<Vec<Vec<Change>>, AllocError>
    ensures { IfOk result (λ v. lists v.items ≡ replicate count []) }
{
    let mut histories = Vec::new(alloc);
    for _ in 0..count {
        histories.push(Vec::new(alloc))?;
    }
    Ok(histories)
}

/// Puts the change last in the history of its module, if it has one.
fn put(histories: &mut Vec<Vec<Change>>, change: Change) -> Result<(), AllocError>
    ensures { OnOk result (lists histories.new.items ≡ with_change (lists histories.old.items) change) }
{
    let owner = change.module as usize;
    if owner < histories.len() {
        histories[owner].push(change)?;
    }
    Ok(())
}

/// The changes of each module of a number below `count`, in order.
pub fn histories(
    alloc: Global,
    count: usize,
    story: &[Change],
) -> Result<Vec<Vec<Change>>, AllocError>
    ensures { IfOk result (λ v. (length (lists v.items) ≡ count) × ((m : ℕ) → m < count → get_or (lists v.items) m [] ≡ filter (is_of m) story.now)) }
{
    let mut histories = empty_histories(alloc, count)?;
    for change in story.iter() {
        put(&mut histories, *change)?;
    }
    Ok(histories)
}

/// Whether a module isn't loaded after `since` commands, if it is loaded or not before its next change.
fn is_away(loaded: bool, since: u32, next: u32) -> bool
    ensures { result ≡ (not loaded && nat_lt since next) }
{
    !loaded && since < next
}

/// The first number of commands from this one on after which a module with this history isn't loaded, if there is one.
pub fn first_away(history: &[Change], from: u32) -> Option<u32>
    ensures { IsNonDecreasingBy (λ change. change.at) history.now → IsLeast (λ k. (from ≤ k) × (loaded_by k true history.now ≡ false)) result }
{
    let mut loaded = true;
    let mut since = from;
    for change in history.iter() {
        if is_away(loaded, since, change.at) {
            return Some(since);
        }
        since = since.max(change.at);
        loaded = change.load;
    }
    if loaded { None } else { Some(since) }
}
