//! Laws of the rows over any list of users that come and go, for readers of the definitions and for
//! the layers above.

ghost use Rattle.std.specs.Prelude.{◌≡◌, ℕ, ◌<◌, true, List, ◌∷◌, ◌++◌, length};
ghost use Rattle.ft_base.specs.declared.limits.TheConstants.{USERS};
ghost use Rattle.ft_base.specs.Marks.{holds};
ghost use Rattle.site_counts.specs.Rows.{row_of, HasRoom, HasUser};
ghost use Rattle.site_counts.specs.Users.{SitedUser, Move, AreThere, rows_after, row_by};

/// Each row is its own sum over the users that have been added and not dropped.
pub fn rows_are_sums()
    ensures { (size f : ℕ) (moves : List Move) (users : List SitedUser) → AreThere moves users
        → f < size → row_of (rows_after size moves) f ≡ row_by users f }
{}

/// While fewer users are there than can be counted, there is room for one more at each function.
pub fn there_is_room_for_a_user()
    ensures { (size f : ℕ) (moves : List Move) (users : List SitedUser) → AreThere moves users
        → f < size → length users < USERS → HasRoom (row_of (rows_after size moves) f) }
{}

/// A user that has been added and not dropped can be dropped.
pub fn a_user_can_be_dropped()
    ensures { (size f : ℕ) (moves : List Move) (before after : List SitedUser) (user : SitedUser)
        → AreThere moves (before ++ user ∷ after) → f < size → holds user.on f ≡ true
        → HasUser user.regs user.ipmodify (row_of (rows_after size moves) f) }
{}
