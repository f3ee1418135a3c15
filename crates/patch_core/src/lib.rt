//! Changing call sites while CPUs run over them.
//!
//! A *batch* gives some call sites new instructions, in the order of the kernel's text patching
//! (`text_poke_bp_batch`). It is a list of *moves*: a store, or a *sync*, which is a wait until each CPU
//! has acknowledged a request that is made now.
//!
//! A CPU reads a site by a *fetch* of two loads: of the *head*, its first byte, and of the *tail*, the
//! other four. If the head is the breakpoint, it loads in place of the tail the site's *next* word,
//! which has the number of the instruction to come. It acknowledges no request between the two
//! loads, so no fetch begins before a sync and ends after it.
//!
//! Promised: [`Batch::next`] gives the moves of the definition in their order, and then that the batch
//! is done. The [`laws`] say what that order is: how many moves there are and which are syncs, and when
//! each site gets its four stores. No call takes memory. `steppers_tests` compares the
//! moves of three sites with ones worked out by hand. No clause says that a call takes the same time
//! however many sites there are.
#![tactic(auto)]

mod batch;
pub mod laws;

pub use batch::{Batch, BatchNext};
