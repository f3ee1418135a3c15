//! The views of a history, as the kernel's tracers and the files of tracefs give it: which lines each
//! has, worked out as numbers. What the text of each line is, and that of the log, is defined here in
//! `specs`; `trace_lines` puts the lines, and `trace_print` chooses among the forms.
//!
//! | view | like | lines |
//! |---|---|---|
//! | function | the function tracer (`ftrace.rst`, "function") | one an entry callback of a function user |
//! | graph | the function graph tracer (`ftrace.rst`, "function graph tracer") | for each graph user, one an entry callback and one an exit callback; one for both if nothing is between |
//! | profile | `trace_stat` (`ftrace.rst`, `function_profile_enabled`), an fprobe's `nmissed` | for each profile user one a function; one an fprobe |
//! | enabled | `enabled_functions` (`ftrace.rst`, "The File System") | one a function that some users trace |
//! | modules | | one a line that loads or unloads a module |
//! | rings | `per_cpu/cpu0/trace` (`ftrace.rst`, `per_cpu`, `buffer_size_kb`) | for each CPU one, and one an entry that its ring holds; one a trigger |
//!
//! Promised: [`function_lines`], [`graph_lines`] and [`profile_lines`] give, for each legal history of a
//! job, [`enabled_lines`] for the desk that it leaves, and [`rings_lines`] for rings whose entries are
//! entry callbacks of it, lines whose texts are exactly those of the view. What they need of a job is
//! [`Named`]. [`FunctionView`], [`ProfileView`] and [`RingsView`] take the items one after the other, each
//! when it is marked. A function view takes room for an item's line before, and the others have all memory
//! from their making. Only tested, in `trace_print_tests`: that memory is found.
#![tactic(auto)]

mod counts;
mod enabled;
mod function;
mod graph;
mod graph_line;
mod leaves;
mod line_ring;
mod modules;
mod named;
mod open_calls;
mod profile;
mod ring_view;
mod rings;
mod stacks;
mod switch;

pub use counts::{Counts, Totals, counted};
pub use enabled::{EnabledLine, enabled_lines, returned, returned_with};
pub use function::{FunctionLine, FunctionView, function_lines};
pub use graph::graph_lines;
pub use graph_line::{GraphLine, Shown};
pub use modules::ModuleLine;
pub use named::{Named, TaskName};
pub use profile::{ProfileLine, ProfileView, profile_lines};
pub use ring_view::RingsView;
pub use rings::{RingsLine, rings_lines};
