//! The words of a text, and what they say one after the other.

ghost use Rattle.std.specs.Prelude.{◌≡◌, ℕ, List, Option, map, option_map, IfOk};
ghost use Rattle.std.specs.Fn.{FnReturnsAt};
ghost use Rattle.script_text.specs.Lines.{words_of};
ghost use Rattle.script_text.specs.Words.{all_read};

use std::alloc::{AllocError, Global};

/// The words of a text, which come between its spaces and tabs.
pub fn words(alloc: Global, text: &str) -> Result<Vec<&str>, AllocError>
    ensures { IfOk result (λ v. map (λ w. w.now) v.items ≡ words_of text.entry.now) }
{
    text.split([' ', '\t'])
        .filter(|word| !word.is_empty())
        .collect(alloc)
}

/// What the words say, one after the other. `Ok(None)` says that one of them says nothing.
pub fn all_read<T: Drop, F: Fn(&str) -> Option<T>>(
    alloc: Global,
    words: &[&str],
    read: F,
) -> Result<Option<Vec<T>>, AllocError>
    requires { F.IsAlwaysCallable read }
    // What each word says is whatever `read` computes.
    ensures { (says : List ℕ → Option T) → ((word : List ℕ) (r : Option T) → FnReturnsAt F.Fn read word r → r ≡ says word)
        → IfOk result (λ r. option_map (λ v. v.items) r ≡ all_read says (map (λ w. w.now) words.now)) }
{
    let mut values = Vec::new(alloc);
    for word in words {
        let Some(value) = read(word) else {
            return Ok(None);
        };
        values.push(value)?;
    }
    Ok(Some(values))
}
