//! A pattern, read from a text and matched against names.

ghost use Rattle.std.specs.Prelude.{◌≡◌, ◌↔◌, IsTrue, IfOk, IfErr, OnOk, Some, None};
ghost use Rattle.glob_filter.specs.Items.{items_of};
ghost use Rattle.glob_filter.specs.Matching.{Fits, is_fit};
ghost use Rattle.glob_filter.specs.Causes.{first_cause, IsCause};

use crate::faults::{PatternFault, find_cause};
use crate::parse::read_tokens;
use crate::places::Places;
use crate::token::Token;
use std::alloc::Global;
use std::marker::Model;

/// A glob pattern. Contracts see the list of its items.
#[derive(Debug, Drop)]
pub struct Pattern {
    tokens: Vec<Token>,
    places: Places,
}

impl Model for Pattern {
    ghost use Rattle.std.specs.Prelude.{List};
    ghost use Rattle.glob_filter.specs.Items.{Item};

    ghost Value = { List Item };

    ghost use Rattle.glob_filter.specs.TokenItems.{token_items};

    ghost view = { λ p. token_items p.tokens.items };

    ghost use Rattle.glob_filter.specs.Places.{StandsFor};

    ghost invariant = { λ p. StandsFor p.places.takes.items p.places.stars.items p.places.start (token_items p.tokens.items) };
}

impl Pattern {
    /// Reads a text of 1 to `ft_base::limits::PATTERN_BYTES` bytes with no backslash as a pattern.
    pub fn read(alloc: Global, text: &str) -> Result<Pattern, PatternFault>
        ensures items { IfOk result (λ pattern. pattern ≡ items_of text.now) }
        ensures ok { OnOk result (first_cause text.now ≡ None) }
        // A text that has a cause is refused for it, whatever memory there is.
        ensures refused { (fault : PatternFault) → first_cause text.now ≡ Some fault → result ≡ Err fault }
        ensures err { IfErr result (IsCause text.now) }
    {
        if let Some(cause) = find_cause(text) {
            return Err(cause);
        }
        let tokens = read_tokens(alloc, text.as_bytes()).map_err(|_| PatternFault::NoMemory)?;
        let places = Places::new(alloc, tokens.as_slice()).map_err(|_| PatternFault::NoMemory)?;
        Ok(Pattern { tokens, places })
    }

    /// Whether the pattern matches the whole name. It takes no memory.
    pub fn matches(&self, name: &str) -> bool
        ensures test { result ≡ is_fit self.now name.now }
        ensures relation { IsTrue result ↔ Fits self.now name.now }
    {
        self.places.matches(name.as_bytes())
    }
}
