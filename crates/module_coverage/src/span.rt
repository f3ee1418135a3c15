//! When a call may be under way.

ghost use Rattle.std.specs.Prelude.{◌≡◌, map, IfOk};
ghost use Rattle.module_coverage.specs.Walks.{span_to};

use ft_base::FuncNo;
use std::alloc::{AllocError, Global};

/// A call, and between which numbers of commands it may be under way.
#[derive(Clone, Copy)]
pub struct Span {
    /// Its line in the script, from 1.
    pub line: u32,
    /// The called function.
    pub func: FuncNo,
    /// So many commands have returned when it begins, or more.
    pub from: u32,
    /// So many commands have begun when it has returned, or fewer.
    pub to: usize,
}

/// A call that hasn't returned.
#[derive(Clone, Copy)]
pub struct Entered {
    /// Its line in the script, from 1.
    pub line: u32,
    /// The called function.
    pub func: FuncNo,
    /// So many commands have returned when it begins, or more.
    pub from: u32,
}

/// The call's span, if so many commands have begun when it has returned.
pub fn span_to(to: usize, call: Entered) -> Span
    ensures { result ≡ span_to to call }
{
    Span {
        line: call.line,
        func: call.func,
        from: call.from,
        to,
    }
}

/// The spans of all these calls, if so many commands have begun when they have returned.
pub fn spans_to(alloc: Global, to: usize, calls: &[Entered]) -> Result<Vec<Span>, AllocError>
    ensures { IfOk result (λ v. v.items ≡ map (span_to to) calls.now) }
{
    calls.iter().map(|call| span_to(to, *call)).collect(alloc)
}
