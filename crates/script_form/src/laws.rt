//! What holds of the forms of lines, whatever is called. The law is a function with nothing to do,
//! whose clause says it.

ghost use Rattle.std.specs.Prelude.{◌≡◌, ◌↔◌, List, Some};
ghost use Rattle.script_text.specs.Lines.{Word};
ghost use Rattle.script_form.specs.Forms.{LineForm};
ghost use Rattle.script_form.specs.Lines.{form_of};
ghost use Rattle.script_form.specs.Grammar.{HasForm};

/// Words say something by the grammar, which has one rule for each way to write a line, if and only
/// if that is the form that they are read as. So words say one thing at most, and a line whose words
/// have no form is none that the grammar writes.
pub fn grammar_gives_the_form()
    ensures { (words : List Word) (form : LineForm) → HasForm words form ↔ (form_of words ≡ Some form) }
{}
