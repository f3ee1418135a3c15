//! Trace rings: which entries of a trace each CPU keeps, and when triggers switch tracing on and off.
//!
//! Each CPU has a *ring*, which holds the last entries of a trace that were *written* into it. An entry
//! is the place of an entry callback of a user of kind function. It is written only while *tracing* is
//! on. A *trigger* is hit at each call of a function of its set. A hit *fires*, if the trigger has no
//! limit or was hit fewer times than that before, and then switches tracing on or off
//! (`ftrace.rst`, "Filter commands").
//!
//! The specs have these definitions: `Plan` (what of a job is needed for this), `Hits` (what an item is
//! to rings and triggers), `Fold` (the rings of a history that is gone through by place), `Legal` (the
//! rings that a history may have whose CPUs ran side by side), `Kept` (what one CPU makes of its items
//! by itself). [`laws`] promises that the first are among the second.
//!
//! Here is what their makers share: the plan ([`TracePlan`]), one ring ([`CpuRing`]), and all rings with
//! the places at which triggers fired ([`Rings`]). Their contracts are exact. Only tested, in
//! `threads_tests`: that memory is found.
#![tactic(auto)]

pub mod laws;
mod plan;
mod ring;
mod rings;

pub use plan::TracePlan;
pub use ring::CpuRing;
pub use rings::Rings;
