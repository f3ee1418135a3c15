//! Words that are options, which are read by place.

ghost use Rattle.std.specs.Prelude.{◌≡◌, map, option_map};
ghost use Rattle.script_form.specs.Users.{flag, argument};

/// Whether the next word is this one, and the words after it.
pub fn flag<'w, 'a>(key: &str, words: &'w [&'a str]) -> (bool, &'w [&'a str])
    ensures { flag key.now (map (λ w. w.now) words.entry.now) ≡ (result.0, map (λ w. w.now) result.1.now) }
{
    match words {
        [word, rest @ ..] if *word == key => (true, rest),
        _ => (false, words),
    }
}

/// The word after this one, if this one is the next, and the words after both.
pub fn argument<'w, 'a>(key: &str, words: &'w [&'a str]) -> (Option<&'a str>, &'w [&'a str])
    ensures { argument key.now (map (λ w. w.now) words.entry.now) ≡ (option_map (λ w. w.now) result.0, map (λ w. w.now) result.1.now) }
{
    match words {
        [word, said, rest @ ..] if *word == key => (Some(*said), rest),
        _ => (None, words),
    }
}
