//! Words that name no number of the job, and how a text is cut at a byte.

ghost use Rattle.std.specs.Prelude.{◌≡◌, ◌<◌};
ghost use Rattle.log_reader.specs.Reading.{before, after, number_in, context_in, reason_in};

use ft_base::{Ctx, Reason};

/// What stands before the first separator, and what comes after it. A text without one is all before it.
pub(crate) fn cut(text: &str, separator: char) -> (&str, &str)
    requires { separator < 128 }
    ensures before { result.0.now ≡ before separator text.entry.now }
    ensures after { result.1.now ≡ after separator text.entry.now }
{
    match text.split_once(separator) {
        Some(parts) => parts,
        None => (text, ""),
    }
}

/// The number that a word writes.
pub(crate) fn read_number(word: &str) -> Option<u32>
    ensures { result ≡ number_in word.now }
{
    word.parse::<u32>().ok()
}

/// The context that a word names.
#[tactic(auto, unfolding(crate::specs::Reading::context_in))]
pub(crate) fn read_context(word: &str) -> Option<Ctx>
    ensures { result ≡ context_in word.now }
{
    match word {
        "normal" => Some(Ctx::Normal),
        "softirq" => Some(Ctx::Softirq),
        "irq" => Some(Ctx::Irq),
        "nmi" => Some(Ctx::Nmi),
        _ => None,
    }
}

/// The reason that a word names.
#[tactic(auto, unfolding(crate::specs::Reading::reason_in))]
pub(crate) fn read_reason(word: &str) -> Option<Reason>
    ensures { result ≡ reason_in word.now }
{
    match word {
        "pid" => Some(Reason::Pid),
        "recursion" => Some(Reason::Recursion),
        "depth" => Some(Reason::Depth),
        _ => None,
    }
}
