//! What merges of lanes are. Each law is a function with an empty body, whose clauses say it.

ghost use Rattle.std.specs.Prelude.{◌≡◌, ℕ, List, length, sum};
ghost use Rattle.desk_lock.specs.declared.served.Served1.{Served1};
ghost use Rattle.desk_lock.specs.Journals.{IsMerge};

/// A merge of lanes has as many entries as the lanes have items: it has no item twice, none is left
/// out, and there are no others.
pub fn a_merge_has_all_items()
    ensures { (counts : List ℕ) (journal : List Served1) → IsMerge counts journal → length journal ≡ sum counts }
{}
