//! The *job* of a script, or the line for which it is refused and the *cause*.
//!
//! A script is read one line after the other. Each line has a form (`script_form`), and a line of a
//! form *declares* something: a function, a trigger, a user, a CPU, a task, an act of the last task, a
//! line of control, turns of the schedule. What the lines above a line have declared decides, with the line
//! itself, whether the line has a cause to be refused; only whether an act is its task's last is seen
//! from the lines below. A text is a script if no line has a cause and its tasks and control can all
//! come to their ends (`script_waits`), and no function of a module is needed when that may be unloaded (`module_coverage`).
//! Then its job is the list of what its lines mean; lines of control come to the commands that carry
//! them out (`module_table`), and are planned on a desk for that only if it makes a difference (`late`).
//!
//! Proved: [`read_script`] gives exactly the job of each script, and of each other text the lowest
//! line that has a cause and the first of its causes; out of memory is the one other answer. A text
//! has exactly one of these answers ([`a_text_has_one_answer`]); [`refusal_is_first`] and
//! [`a_clean_text_is_a_script`] say the definitions in other words. A script that says how many
//! trampoline slots there are has the same job in each version that accepts it
//! ([`a_version_changes_no_more_than_limits`]). Only tested, by rows that the program is run on
//! (`tools/ft check program`): that the largest scripts are read when there is memory, and that reading
//! takes time in proportion to the bytes and to what the lines of control plan.
#![tactic(auto)]

mod declaration;
mod expansion;
mod faults;
mod form;
mod last_act;
mod late;
mod laws;
mod levels;
mod reader;
mod script;

pub use faults::{Cause, ScriptFault};
pub use laws::{
    a_clean_text_is_a_script, a_text_has_one_answer, a_version_changes_no_more_than_limits,
    refusal_is_first,
};
pub use script::read_script;
