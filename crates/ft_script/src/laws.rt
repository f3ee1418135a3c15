//! What the definitions of a job and of a refusal mean, in other words.

ghost use Rattle.std.specs.Prelude.{◌≡◌, ◌↔◌, ◌⊎◌, ◌∷◌, List, ℕ, true, is_some, Some, None};
ghost use Rattle.ft_base.specs.Job.{Job};
ghost use Rattle.script_text.specs.Lines.{Line, lines_of};
ghost use Rattle.ft_script.specs.declared.faults.ScriptFault.{ScriptFault};
ghost use Rattle.ft_script.specs.Above.{none_above};
ghost use Rattle.ft_script.specs.Script.{refusal_below, declared_in, job_of, IsFirstRefusal, IsClean, LeavesWaiting, LeavesUnloaded, IsJobOf, IsRefusalOf};

/// A text is a script or it is refused, never both, and it has one job or one fault.
pub fn a_text_has_one_answer()
    ensures some { (text : List ℕ) → ((job : Job) × IsJobOf text job) ⊎ ((fault : ScriptFault) × IsRefusalOf text fault) }
    ensures not_both { (text : List ℕ) (job : Job) (fault : ScriptFault) → IsJobOf text job → IsRefusalOf text fault → ⊥ }
    ensures one_job { (text : List ℕ) (a b : Job) → IsJobOf text a → IsJobOf text b → a ≡ b }
    ensures one_fault { (text : List ℕ) (a b : ScriptFault) → IsRefusalOf text a → IsRefusalOf text b → a ≡ b }
{}

/// A fault other than a deadlock and an unloaded module is that of the first line that has a cause, with its first cause.
pub fn refusal_is_first()
    ensures { (text : List ℕ) (fault : ScriptFault)
        → (refusal_below none_above (lines_of text) ≡ Some fault) ↔ IsFirstRefusal none_above (lines_of text) fault }
{}

/// A text none of whose lines has a cause is a script if the greedy run leaves nobody waiting, and no line
/// may find a module unloaded.
pub fn a_clean_text_is_a_script()
    ensures { (text : List ℕ) → IsClean text → LeavesWaiting text None → LeavesUnloaded text None → IsJobOf text (job_of (declared_in text)) }
{}

/// Two scripts that differ in line 1 alone, which says the version, and that say how many trampoline
/// slots there are, have the same job but for its version.
pub fn a_version_changes_no_more_than_limits()
    ensures { (text other : List ℕ) (one two : Line) (below : List Line) (a b : Job) → lines_of text ≡ one ∷ below → lines_of other ≡ two ∷ below
        → IsJobOf text a → IsJobOf other b → is_some (declared_in text).tramps ≡ true → b ≡ record a { version = b.version } }
{}
