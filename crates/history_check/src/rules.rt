//! Whether the next item, which is on its task's plain run, keeps each part of legality.

mod callbacks;
mod commands;
pub mod exits;
pub mod fetches;
pub mod refusals;
mod silence;

pub(crate) use callbacks::keeps_callbacks;
pub use commands::keeps_commands;
pub(crate) use exits::keeps_exits;
pub use fetches::keeps_fetches;
pub use refusals::keeps_refusals;
pub(crate) use silence::keeps_silence;
