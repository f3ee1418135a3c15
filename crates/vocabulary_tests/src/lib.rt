//! Tests of the two ends of the program and of what goes between them, by public calls: the sources and
//! sinks of `ft_io`, in memory and over readers and writers that fail once, histories, of `ft_hist`, and
//! what is counted in them, of `func_profile`. They have a crate of their own, since a crate is proved once
//! more with the tests inside it.
#![tactic(auto)]

#[cfg(test)]
mod histories;
#[cfg(test)]
mod streams;
