//! The seats of a table's actors, each in a thread of its own or stepped here: what runs of all kinds
//! share.
//!
//! A seat is control's, a CPU's, or a CPU's with its seat at the trace rings ([`AnySeat`]).
//! [`launch_all`] starts a thread for each, as far as threads can be started, and [`end_all`] steps
//! those that are left here and joins the others. A run with lanes does something in between.
//!
//! Promised: the seats come back in the order in which they were given, each at its end, after steps on
//! their tables alone. [`TracedSeat`] offers to the ring exactly what the CPU marks.
//!
//! Only tested, in `live_tests`: that several threads made the steps. Nothing is said of whether a run
//! ends, nor of how the threads' steps fall; that a thread waits for a seat that is never stepped is kept
//! out by the order in the code alone (`end_all` in src/seating.rt, and who calls it).
#![tactic(auto)]

mod ended;
mod here;
mod pace;
mod passing;
mod rooms;
mod seat;
mod seat_thread;
mod seating;
mod traced;

pub use ended::{Ended, add_cpus, take_apart};
pub use here::{HereSeat, step_each};
pub use pace::Pace;
pub use passing::Passing;
pub use rooms::{Rooms, make_flags, make_rooms};
pub use seat::{AnySeat, CONTROL};
pub use seat_thread::{SeatPromise, SeatThread};
pub use seating::{Place, Seating, end_all, launch_all};
pub use traced::TracedSeat;
