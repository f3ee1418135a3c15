//! Lanes that take turns at a value which notes what it serves.

mod notes;
mod threads;
mod turns;
