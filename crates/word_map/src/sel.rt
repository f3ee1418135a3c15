//! The state of a user: what its `sel` word holds.

ghost use Rattle.std.specs.Prelude.{◌≡◌, ◌<◌, ◌&&◌, ◌==◌};
ghost use Rattle.word_map.specs.Contents.{sel_parts, sel_word};

use crate::halves::{halves, high};

/// What the word of a user's state says: the registration number in the high half, and each of the
/// others in a bit of the low half, in this order from bit 0 on.
#[derive(Clone, Copy, PartialEq, Eq)]
pub struct Sel {
    /// The registration number: how often the user was registered.
    pub reg: u32,
    /// Whether the user is registered.
    pub registered: bool,
    /// Whether it is enabled.
    pub enabled: bool,
    /// The copy of its sets that is in use, 0 or 1.
    pub copy: u8,
    /// Whether its filter is empty, and so lets every function in.
    pub empty: bool,
}

impl Sel {
    /// The word that says this.
    pub fn word(self) -> u64
        requires { self.copy < 2 }
        ensures { result ≡ sel_word self.reg self.registered self.enabled self.copy self.empty }
    {
        let bits = u32::from(self.registered)
            + 2 * u32::from(self.enabled)
            + 4 * u32::from(self.copy)
            + 8 * u32::from(self.empty);
        halves(self.reg, bits)
    }

    /// What a word says.
    pub fn of(word: u64) -> Sel
        ensures parts { result ≡ sel_parts word }
        ensures copy { result.copy < 2 }
    {
        Sel {
            reg: high(word),
            registered: word & 1 == 1,
            enabled: (word >> 1) & 1 == 1,
            copy: ((word >> 2) & 1) as u8,
            empty: (word >> 3) & 1 == 1,
        }
    }

    /// Whether the user is registered and enabled.
    pub fn is_on(self) -> bool
        ensures { result ≡ (self.registered && self.enabled) }
    {
        self.registered && self.enabled
    }

    /// Whether the user is registered under this number, and enabled.
    pub fn stands(self, reg: u32) -> bool
        ensures { result ≡ (self.registered && self.enabled && (self.reg == reg)) }
    {
        self.registered && self.enabled && self.reg == reg
    }
}
