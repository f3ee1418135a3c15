//! The texts of a history. A *form* is a way to print: the whole log, or a view as the kernel's
//! tracers and the files of tracefs give it. A *part* is what one item, user or function prints.
//!
//! | form | like | lines |
//! |---|---|---|
//! | log | | one an item, by place |
//! | function | the function tracer (`ftrace.rst`, "function") | one an entry callback of a function user |
//! | graph | the function graph tracer (`ftrace.rst`, "function graph tracer") | for each graph user, one an entry callback and one an exit callback; one for both if nothing is between |
//! | profile | `trace_stat` (`ftrace.rst`, `function_profile_enabled`), an fprobe's `nmissed` | for each profile user one a function; one an fprobe |
//! | enabled | `enabled_functions` (`ftrace.rst`, "The File System") | one a function that some users trace |
//! | modules | | one a line that loads or unloads a module |
//! | rings | `per_cpu/cpu0/trace` (`ftrace.rst`, `per_cpu`, `buffer_size_kb`, `overwrite`) | for each CPU one, and one an entry that its ring holds; one a trigger |
//!
//! Promised: [`print`] gives, for each legal history of a job, exactly the text of its form, as the
//! specs define it; [`write_text`] writes it to a sink in pieces, or a beginning of it if the sink
//! fails, and [`write_log`] does so with the form log of any history; [`print_rings`] and
//! [`write_rings`] do so with the form rings, of rings that threads have kept; [`summary`] gives exactly
//! the counts; [`read_log`] reads the form log back. A [`Kept`] takes the items of a replay as they are
//! marked and keeps what a form or the summary needs of them, and [`write_kept`] and [`summary_kept`] make
//! of it the same texts as of all items. Only tested, in `trace_print_tests` and `ft_app_tests`: that memory
//! is found.
//!
//! A form is worked out line by line, as numbers, which takes memory (`trace_views`). Then the lines
//! are put, which takes none (`trace_lines`): what was written can't be taken back if memory runs out.
#![tactic(auto)]

mod forms;
mod kept;
mod names;
mod read;
mod totals;

pub use forms::{TextFail, print, print_rings, write_kept, write_log, write_rings, write_text};
pub use ft_words::Form;
pub use kept::Kept;
pub use log_reader::{Log, ReadFail};
pub use names::Names;
pub use read::read_log;
pub use totals::{summary, summary_kept};
pub use trace_lines::laws;
