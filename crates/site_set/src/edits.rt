//! The edit of a filter.

use crate::sets::SiteSet;

/// A change of a filter: which functions a text selects, and whether they are added or taken out
/// (`ftrace.rst`, "dynamic ftrace" and "Filter commands").
#[derive(Debug, Drop)]
pub struct Edit {
    /// The edit starts from the filter as it is (`>>`), and not from the empty set (`>`).
    pub append: bool,
    /// The functions of `set` are taken out (a leading `!`), and not added.
    pub remove: bool,
    /// The edit leaves the empty set: `>` and no text.
    pub clear: bool,
    /// The functions that the text selects.
    pub set: SiteSet,
}
