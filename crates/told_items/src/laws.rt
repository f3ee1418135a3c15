//! The laws of the text.

ghost use Rattle.std.specs.Prelude.{◌≡◌, ℕ, List, true};
ghost use Rattle.std.specs.List.{list_all};
ghost use Rattle.ft_base.specs.Name.{is_name_text};
ghost use Rattle.told_items.specs.Fields.{is_plain};

/// No name has a byte that JSON escapes in a text, so the names of functions and users stand in quotes as
/// they are.
pub fn names_need_no_escape()
    ensures { (name : List ℕ) → is_name_text name ≡ true → list_all is_plain name ≡ true }
{}
