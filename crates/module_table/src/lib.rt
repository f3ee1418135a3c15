//! Modules that are loaded and unloaded. A function may lie in a *module*; the functions of a module
//! that isn't loaded are *hidden*. The desk knows no modules: a hidden function stands in every user's
//! notrace set, beside the functions that the user keeps out itself, its *own* set. So a *line* of
//! control, which is a command, a load or an unload, is carried out by commands of the desk: an edit of
//! a notrace set by the user's *mask*, which is its own set and the hidden functions, and a load or an
//! unload by the masks of all users.
//!
//! Promised: the answer of a line, its commands and what is known after it are those of the
//! definitions. After any lines a user is sited at a function exactly if it is registered, matches the
//! function by its filter and its own notrace set, and the function's module is loaded if it has one;
//! `laws` says so. After want of memory all is as before; that memory is found is only tested.
#![tactic(auto)]

mod commands;
mod hidden;
pub mod laws;
mod line;
mod masks;
mod modules;
mod names;
mod owners;

pub use line::ModLine;
pub use modules::Modules;
pub use names::ModuleNames;
pub use owners::owners_of;
