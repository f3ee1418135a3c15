//! Samples of the word machine by computation: random jobs under schedules of single steps, beside the
//! histories that another program printed, and for each row of the machine's steps a replay that
//! passes it. The worked examples are in `word_machine` itself.
//!
//! They have a crate of their own, since each wrong definition that the edits of `word_machine` try
//! would compute them all once more.
#![tactic(auto)]
