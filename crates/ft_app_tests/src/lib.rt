//! Tests of `ft_app` by the top call over a source and a sink of their own, which fail, count their
//! calls or hold threads. What is written for a script, and the status, are asked of the built program
//! (tools/ftlog/checks/script_texts.py and docs/LANGUAGE.md).
#![tactic(auto)]

#[cfg(test)]
mod tests;
