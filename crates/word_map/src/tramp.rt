//! What a trampoline's `tramp` word holds while the trampoline has a user: the user's registration number
//! in the high half, and the user's number plus 1 in the low half. A free one holds 0.

ghost use Rattle.std.specs.Prelude.{◌≡◌, ◌<◌};
ghost use Rattle.word_map.specs.Contents.{greatest_half, high, tramp_user, tramp_word};

use crate::halves::{halves, high, low};
use ft_base::UserNo;

/// The word of a trampoline that has this user, registered under this number.
pub fn word(reg: u32, user: UserNo) -> u64
    requires { user.0 < greatest_half }
    ensures { result ≡ tramp_word reg user.0 }
{
    halves(reg, user.0 + 1)
}

/// The user of a trampoline. No task asks a free one, which would name user 0.
pub fn user(word: u64) -> UserNo
    ensures { result.0 ≡ tramp_user word }
{
    UserNo(low(word).saturating_sub(1))
}

/// The registration number of the user of a trampoline.
pub fn reg(word: u64) -> u32
    ensures { result ≡ high word }
{
    high(word)
}
