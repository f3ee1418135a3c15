//! Why a text is no pattern.

ghost use Rattle.std.specs.Prelude.{◌≡◌, ◌==◌};
ghost use Rattle.std.specs.List.{list_any};
ghost use Rattle.glob_filter.specs.Causes.{backslash, first_cause};

use ft_base::limits::PATTERN_BYTES;
use thiserror::Error;

/// Why a text is refused as a pattern. If several causes hold, the first of them in this order is
/// the answer.
#[derive(Clone, Copy, Debug, Drop, Error)]
pub enum PatternFault {
    /// The text is empty.
    #[error("the pattern is empty")]
    Empty,
    /// The text has a backslash. Patterns have no escapes.
    #[error("the pattern has a backslash")]
    Backslash,
    /// The text has more than `ft_base::limits::PATTERN_BYTES` bytes.
    #[error("the pattern is too long")]
    TooLong,
    /// Memory ran out. It is the answer only if no other cause holds.
    #[error("out of memory")]
    NoMemory,
}

fn has_backslash(text: &str) -> bool
    ensures { result ≡ list_any (λ b. b == backslash) text.now }
{
    text.bytes().any(|byte| byte == b'\\')
}

/// The first cause to refuse the text, if there is one.
pub fn find_cause(text: &str) -> Option<PatternFault>
    ensures { result ≡ first_cause text.now }
{
    if text.is_empty() {
        return Some(PatternFault::Empty);
    }
    if has_backslash(text) {
        return Some(PatternFault::Backslash);
    }
    if text.len() > PATTERN_BYTES as usize {
        return Some(PatternFault::TooLong);
    }
    None
}
