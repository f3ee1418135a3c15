//! The words of a line that has few, without a list of their own.

ghost use Rattle.std.specs.Prelude.{◌≡◌, ◌≤◌, ◌∷◌, [], true, not, map, take, position, IfSome, None};
ghost use Rattle.script_text.specs.Lines.{is_blank, is_plain, words_of};

use crate::lines::is_blank;

/// Where the first word of a line begins, if it has one.
fn word_start(line: &[u8]) -> Option<usize>
    ensures { result ≡ position (λ b. not (is_blank b)) line.now }
{
    line.iter().position(|byte| !is_blank(*byte))
}

/// Where the first blank of a line is, if it has one.
fn word_end(line: &[u8]) -> Option<usize>
    ensures { result ≡ position is_blank line.now }
{
    line.iter().position(|byte| is_blank(*byte))
}

/// The first word of a plain text, and what comes after it. `None` says that it has none.
fn first_word(text: &str) -> Option<(&str, &str)>
    requires { is_plain text.now ≡ true }
    ensures none { result ≡ None → words_of text.entry.now ≡ [] }
    ensures word { IfSome result (λ r. words_of text.entry.now ≡ r.0.now ∷ words_of r.1.now) }
    ensures plain { IfSome result (λ r. is_plain r.1.now ≡ true) }
{
    let start = word_start(text.as_bytes())?;
    let text = &text[start..];
    match word_end(text.as_bytes()) {
        Some(end) => Some(text.split_at(end)),
        None => Some((text, "")),
    }
}

/// The words of a plain text, and how many they are, if they are six at most: a command has up to five. A
/// list of them would take more instructions than all else that is read of a short line.
pub fn few_words(text: &str) -> Option<([&str; 6], usize)>
    requires { is_plain text.now ≡ true }
    ensures few { IfSome result (λ r. r.1 ≤ 6) }
    ensures words { IfSome result (λ r. map (λ w. w.now) (take r.1 r.0) ≡ words_of text.entry.now) }
{
    let mut words = [""; 6];
    let mut rest = text;
    for count in 0..6 {
        let Some((word, after)) = first_word(rest) else {
            return Some((words, count));
        };
        words[count] = word;
        rest = after;
    }
    match first_word(rest) {
        None => Some((words, 6)),
        Some(_) => None,
    }
}
