//! Tests of crates that a script is read with, by their public calls: the schedules, players and generated
//! scripts of `ft_schedule`, and who waits for ever, of `script_waits`. They have a crate of their own,
//! since a crate is proved once more with the tests inside it. What lines are read as is asked of the
//! program (tools/ftlog/checks/line_forms.py).
#![tactic(auto)]

#[cfg(test)]
mod bulk;
#[cfg(test)]
mod schedules;
#[cfg(test)]
mod waits;
