//! How the words `first` and `link` name users.

ghost use Rattle.std.specs.Prelude.{◌≡◌, ◌<◌, ◌^◌};
ghost use Rattle.word_map.specs.Contents.{name_of, named};

use ft_base::UserNo;

/// What a word holds that names this user: 0 if it names none.
pub fn name_of(user: Option<UserNo>) -> u64
    ensures { result ≡ name_of user }
{
    match user {
        None => 0,
        Some(user) => u64::from(user.0) + 1,
    }
}

/// The user that a word names.
pub fn named(word: u64) -> Option<UserNo>
    requires { word < 2 ^ 32 }
    ensures { result ≡ named word }
{
    if word == 0 {
        None
    } else {
        Some(UserNo((word - 1) as u32))
    }
}
