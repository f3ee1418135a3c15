//! Tests of `trace_print` by its public calls, in a crate above it that may read scripts. What each
//! form prints is tested by the files of examples/ and the rows of tools/ftlog/checks/script_texts.py.
#![tactic(auto)]

#[cfg(test)]
mod tests;
