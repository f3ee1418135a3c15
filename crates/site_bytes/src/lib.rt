//! The bytes of call sites. A *call site* is the first five bytes of a traceable function. Its
//! *instruction* is a nop, a call of the *list caller*, which goes through all users, or a call of
//! the *trampoline* of one user, which has a *slot*. A site is patched while CPUs run over it, so
//! its first byte (the *head*) and the other four (the *tail*) are written apart, with a breakpoint
//! in the place of the head between. (`ftrace.rst`, "dynamic ftrace".)
//!
//! Promised: `encode` gives the bytes of the definition, and `decode` gives the instruction that
//! has the bytes, or `None` exactly if none has; the laws say that no two instructions of a function
//! have the same bytes, and that none begins with the breakpoint. Tests compare the bytes of some
//! instructions with ones worked out by hand. The order in which a site's bytes are written is left
//! to the crates above.
#![tactic(auto)]

mod codec;
mod insn;
mod laws;

pub use codec::{BREAKPOINT, TRAMPOLINE_STEP, decode, encode, head_of, join, tail_of};
pub use insn::{Insn, SiteChange};
pub use laws::{
    breakpoint_is_no_head, decodes_what_it_encodes, differs_by_instruction,
    splits_into_head_and_tail,
};
