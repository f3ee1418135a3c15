//! Whether words are one of the ways to say a mode and an option's value.

ghost use Rattle.std.specs.Prelude.{◌≡◌, ◌↔◌, [], ◌∷◌, Some, IfOk, IsTrue, map};
ghost use Rattle.std.specs.Option.{option_copied};
ghost use Rattle.ft_words.specs.Language.{IsOneOf, spellings_of, spellings_with, Spells};

use std::alloc::{AllocError, Global};

/// Whether the words are these.
fn are_these(words: &[&str], these: &[&str]) -> bool
    ensures { IsTrue result ↔ (map (λ w. w.now) words.now ≡ map (λ w. w.now) these.now) }
{
    words == these
}

/// Whether the words say the mode and no option.
fn spells_alone(words: &[&str], mode: &str) -> bool
    ensures { IsTrue result ↔ IsOneOf (map (λ w. w.now) words.now) (spellings_of mode.now) }
{
    are_these(words, &[mode]) || are_these(words, &["--", mode]) || are_these(words, &[mode, "--"])
}

/// Whether the words say the mode, and the option in one word.
fn spells_joined(words: &[&str], mode: &str, option: &str) -> bool
    ensures { IsTrue result
        ↔ IsOneOf (map (λ w. w.now) words.now) (spellings_with mode.now (option.now ∷ [])) }
{
    are_these(words, &[option, mode])
        || are_these(words, &[option, "--", mode])
        || are_these(words, &[option, mode, "--"])
        || are_these(words, &[mode, option])
        || are_these(words, &[mode, option, "--"])
}

/// Whether the words say the mode, and the option in two words.
fn spells_apart(words: &[&str], mode: &str, name: &str, value: &str) -> bool
    ensures { IsTrue result
        ↔ IsOneOf (map (λ w. w.now) words.now)
        (spellings_with mode.now (name.now ∷ value.now ∷ [])) }
{
    are_these(words, &[name, value, mode])
        || are_these(words, &[name, value, "--", mode])
        || are_these(words, &[name, value, mode, "--"])
        || are_these(words, &[mode, name, value])
        || are_these(words, &[mode, name, value, "--"])
}

/// Whether the words say this mode, and this value of its option of this name.
fn spells_with(
    alloc: Global,
    words: &[&str],
    mode: &str,
    name: &str,
    value: &str,
) -> Result<bool, AllocError>
    ensures { IfOk result (λ b. IsTrue b
        ↔ Spells (map (λ w. w.now) words.now) mode.now name.now (Some value.now)) }
{
    let joined = format!(in alloc; "{name}={value}")?;
    Ok(spells_apart(words, mode, name, value) || spells_joined(words, mode, joined.as_str()))
}

/// Whether the words say this mode, and this value of its option of this name if there is one.
pub fn spells(
    alloc: Global,
    words: &[&str],
    mode: &str,
    name: &str,
    value: Option<&str>,
) -> Result<bool, AllocError>
    ensures { IfOk result (λ b. IsTrue b
        ↔ Spells (map (λ w. w.now) words.now) mode.now name.now (option_copied value.entry)) }
{
    match value {
        None => Ok(spells_alone(words, mode)),
        Some(value) => spells_with(alloc, words, mode, name, value),
    }
}
