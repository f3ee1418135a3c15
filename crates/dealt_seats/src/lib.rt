//! What the seats of a table know, where a first seat deals one to each CPU and takes them back.
//!
//! A *seat* knows what its own actor has done, and what those have done whose seats it took in: so many
//! *parts*. The first seat is control's, or that of whoever stands in its place; it counts the CPUs to
//! which it has dealt a seat.
//!
//! What a part knows is a type parameter, and so is the job, or what a table needs of one. A rule of a
//! table has a `Covers` (`specs/Covers`): each part knows what its actor has done, no actor has two
//! seats, and a CPU that has no seat yet has done nothing. `proofs/Moves` keeps it from the first seat
//! on, while an actor does more, a CPU gets its seat, and a seat joins another. The words of the table
//! are the business of the crates above, and so is what they say of what actors have done.
#![tactic(auto)]

mod view;

pub use view::{Part, View};
