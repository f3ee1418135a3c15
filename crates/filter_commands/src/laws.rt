//! The laws of filter texts and of triggers' texts: functions with an empty body, whose clauses say them.

ghost use Rattle.std.specs.Prelude.{◌≡◌, ◌↔◌, Some};
ghost use Rattle.filter_commands.specs.Forms.{Text, TextForm, form_of};
ghost use Rattle.filter_commands.specs.Grammar.{HasForm};
ghost use Rattle.filter_commands.specs.Triggers.{TriggerForm, HasTrigger, trigger_form};

/// The grammar gives a text a form exactly if that is the form that `read_edit` reads. So a text
/// that is refused with `Command` has no form by the grammar.
pub fn grammar_gives_the_form()
    ensures { (text : Text) (form : TextForm) → HasForm text form ↔ (form_of text ≡ Some form) }
{}

/// The grammar gives a trigger's text a form exactly if that is the form that `read_trigger` reads.
/// So a text that is refused with `Command` has no form by the grammar.
pub fn grammar_gives_the_trigger()
    ensures { (text : Text) (form : TriggerForm) → HasTrigger text form ↔ (trigger_form text ≡ Some form) }
{}
