//! Laws of filters, for readers of the definitions and for the crates above. Each is a function with
//! an empty body, whose clause says it.

ghost use Rattle.std.specs.Prelude.{◌≡◌, ℕ, ◌&&◌, ◌||◌, not, true, false, length, if◌then◌else◌};
ghost use Rattle.ft_base.specs.Marks.{Marks, holds, is_empty};
ghost use Rattle.ft_base.specs.Job.{Edit};
ghost use Rattle.ft_base.specs.Desk.{edited, matches_by};

/// What an edit makes of each function. An edit that clears takes the function out; one with `!`
/// takes it out if it is selected; any other puts it in if it is selected. An edit that doesn't
/// append begins with the empty set.
pub fn edit_of_each_function()
    ensures { (size f : ℕ) (old : Marks) (edit : Edit) → length old ≡ size → length edit.set ≡ size
        → holds (edited size old edit) f
        ≡ (not edit.clear && (if edit.remove
        then (edit.append && holds old f) && not (holds edit.set f)
        else (edit.append && holds old f) || holds edit.set f)) }
{}

/// A removal from an empty set leaves it empty: an empty filter still means all functions.
pub fn removal_from_an_empty_set()
    ensures { (size : ℕ) (old : Marks) (edit : Edit) → edit.remove ≡ true
        → is_empty old ≡ true → is_empty (edited size old edit) ≡ true }
{}

/// A removal of each function that a set holds makes it empty.
pub fn removal_of_all()
    ensures { (size : ℕ) (old : Marks) (edit : Edit) → edit.remove ≡ true
        → ((f : ℕ) → holds old f ≡ true → holds edit.set f ≡ true)
        → is_empty (edited size old edit) ≡ true }
{}

/// An empty filter, also one that a removal has made empty, matches each function that the
/// notrace set doesn't hold.
pub fn empty_filter_means_all()
    ensures { (filter notrace : Marks) (f : ℕ) → is_empty filter ≡ true
        → matches_by filter notrace f ≡ not (holds notrace f) }
{}

/// A function that the notrace set holds is not matched, whatever the filter holds.
pub fn notrace_wins()
    ensures { (filter notrace : Marks) (f : ℕ) → holds notrace f ≡ true
        → matches_by filter notrace f ≡ false }
{}
