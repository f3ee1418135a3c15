//! The seed that is said.

ghost use Rattle.std.specs.Prelude.{◌≡◌, ℕ, IfSome, IfNone};
ghost use Rattle.std.specs.List.{list_all};
ghost use Rattle.std.specs.Char.{is_ascii_digit};
ghost use Rattle.std.specs.Option.{option_copied};
ghost use Rattle.ft_words.specs.Language.{IsSeed, SaysSeed};

/// The most digits of a seed.
const SEED_DIGITS: usize = 10;

/// Whether each byte is a decimal digit.
fn are_digits(text: &str) -> bool
    ensures { result ≡ list_all is_ascii_digit text.now }
{
    text.bytes().all(|byte| byte.is_ascii_digit())
}

/// The seed that the text writes in decimal digits.
fn seed_of(text: &str) -> Option<u32>
    ensures some { IfSome result (IsSeed text.now) }
    ensures none { IfNone result ((n : ℕ) → ¬ IsSeed text.now n) }
{
    // `parse` alone would also take a `+`, and any number of zeros in front.
    if text.is_empty() || text.len() > SEED_DIGITS || !are_digits(text) {
        return None;
    }
    text.parse::<u32>().ok()
}

/// The seed that is said with `--seed`, if anything is.
pub fn seed_said(seed: Option<&str>) -> Option<u32>
    ensures some { IfSome result (SaysSeed (option_copied seed.entry)) }
    ensures none { IfNone result ((n : ℕ) → ¬ SaysSeed (option_copied seed.entry) n) }
{
    match seed {
        Some(text) => seed_of(text),
        None => Some(1),
    }
}
