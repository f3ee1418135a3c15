//! A change of the row of one function, or of each member of a set.

ghost use Rattle.std.specs.Prelude.{◌≡◌, ◌≢◌, ◌<◌, ℕ, true, length};
ghost use Rattle.ft_base.specs.Marks.{holds};
ghost use Rattle.site_counts.specs.Rows.{Allows, after, at_members, row_of};

use crate::rows::{Change, Row};
use site_set::SiteSet;

/// Changes the row of each member of the set. The other rows stay.
pub(crate) fn change_members(rows: &mut [Row], on: &SiteSet, change: Change)
    requires size { length on.now ≡ length rows.old }
    requires allowed { (f : ℕ) → holds on.now f ≡ true → Allows change (row_of rows.old f) }
    ensures { rows.new ≡ at_members on.now (after change) rows.old }
{
    let mut from = 0;
    while let Some(f) = on.next_member(from) {
        rows[f as usize] = rows[f as usize].after(change);
        from = f + 1;
    }
}

/// Changes the row of one function.
pub(crate) fn change_one(rows: &mut [Row], f: u32, change: Change)
    requires within { f < length rows.old }
    requires allowed { Allows change (row_of rows.old f) }
    ensures row { row_of rows.new f ≡ after change (row_of rows.old f) }
    ensures others { (g : ℕ) → g ≢ f → row_of rows.new g ≡ row_of rows.old g }
{
    rows[f as usize] = rows[f as usize].after(change);
}
