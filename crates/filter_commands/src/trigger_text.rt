//! The text of a trigger: GLOB, `:traceon` or `:traceoff`, and an optional `:` and limit.

ghost use Rattle.std.specs.Prelude.{◌≡◌, ◌≤◌, option_map, IfSome};
ghost use Rattle.ft_base.specs.declared.limits.TheConstants.{TRIGGER_LIMIT};
ghost use Rattle.filter_commands.specs.Triggers.{switch_of, limit_of, form_after, trigger_form};
ghost use Rattle.filter_commands.specs.Meanings.{trigger_read};

use crate::forms::is_number;
use crate::numbers::number_to;
use ft_base::limits::TRIGGER_LIMIT;

/// The most digits of a limit.
const LIMIT_DIGITS: usize = 7;

/// What a trigger's text says.
#[derive(Drop)]
pub struct TriggerParts<'a> {
    /// The glob over names.
    pub glob: &'a str,
    /// Tracing is switched on, and not off.
    pub on: bool,
    /// How often the trigger may fire, if that is limited.
    pub limit: Option<u32>,
}

/// Whether a word switches tracing on or off. `None` exactly if it does neither.
fn read_switch(word: &str) -> Option<bool>
    ensures { result ≡ switch_of word.now }
{
    match word {
        "traceon" => Some(true),
        "traceoff" => Some(false),
        _ => None,
    }
}

/// How often a trigger may fire. `None` exactly if the text is no limit.
fn read_limit(text: &str) -> Option<u32>
    ensures value { result ≡ limit_of text.now }
    ensures within { IfSome result (λ limit. (1 ≤ limit) × (limit ≤ TRIGGER_LIMIT)) }
{
    if !is_number(text) || text.len() > LIMIT_DIGITS {
        return None;
    }
    number_to(text, TRIGGER_LIMIT)
}

/// The parts of a text, from the glob before its first `:` and what comes after it.
fn read_after<'a>(glob: &'a str, after: &str) -> Option<TriggerParts<'a>>
    ensures form { option_map trigger_read result ≡ form_after glob.entry.now after.now }
    ensures limit { IfSome result (λ parts. IfSome parts.limit (λ limit. (1 ≤ limit) × (limit ≤ TRIGGER_LIMIT))) }
{
    match after.split_once(':') {
        None => Some(TriggerParts {
            glob,
            on: read_switch(after)?,
            limit: None,
        }),
        Some((word, digits)) => Some(TriggerParts {
            glob,
            on: read_switch(word)?,
            limit: Some(read_limit(digits)?),
        }),
    }
}

/// The parts of a trigger's text. `None` exactly if it isn't of the form of one.
pub fn read_parts(text: &str) -> Option<TriggerParts<'_>>
    ensures form { option_map trigger_read result ≡ trigger_form text.entry.now }
    ensures limit { IfSome result (λ parts. IfSome parts.limit (λ limit. (1 ≤ limit) × (limit ≤ TRIGGER_LIMIT))) }
{
    let (glob, after) = text.split_once(':')?;
    read_after(glob, after)
}
