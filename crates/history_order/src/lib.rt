//! What the order of a legal history's items tells, and what it doesn't: what has to come before a
//! call, a return or a command that waits ([`waits`](acts_wait_for_their_commands)), and which items
//! may change places ([`places`](neighbours_of_two_tasks_change_places)). They are laws; there is no
//! code.
#![tactic(auto)]

mod places;
mod waits;

pub use places::{
    a_begin_may_come_earlier, a_begin_may_come_later, a_return_may_come_earlier,
    a_return_may_come_later, neighbours_of_two_tasks_change_places,
};
pub use waits::{acts_wait_for_their_commands, commands_wait_for_their_tasks};
