//! Gates that the threads of `live_threads` and `live_lanes` pass: that several come through at once, and
//! how often each passes. What such threads print stands in rows of the pages and of
//! tools/ftlog/checks.

mod jobs;
mod lanes;
mod meeting;
mod tally;
mod threads;
