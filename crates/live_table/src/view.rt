//! What a seat knows. No value of these types is ever made: contracts alone speak of them.

use ft_job::Job;
use std::collections::LinkedList;

/// An actor, and the values that its operations have given, one after the other.
pub type Part = dealt_seats::Part<LinkedList<u64>>;

/// What a seat knows: the job, and the job by which the seat's own actor goes. In control's seat that
/// is the job with the lines that were led so far, in a CPU's the whole job.
pub type View = dealt_seats::View<Job, Job, LinkedList<u64>>;
