//! The rings of a history.

ghost use Rattle.std.specs.Prelude.{◌≡◌, IfOk};
ghost use Rattle.ring_rules.specs.Fold.{fold};
ghost use Rattle.ring_rules.specs.Plan.{plan_of};

use crate::plan::trace_plan;
use crate::tracer::Tracer;
use ft_base::NoMemory;
use ft_hist::History;
use ft_job::Job;
use ring_rules::{Rings, TracePlan};
use std::alloc::Global;

/// The rings of a history of a job, gone through by place. The error says that memory ran out.
pub fn fold_rings(alloc: Global, job: &Job, history: &History) -> Result<Rings, NoMemory>
    ensures { IfOk result (λ r. r ≡ fold (plan_of job.now) history.now.items) }
{
    let plan = trace_plan(alloc, job)?;
    fold_by(alloc, &plan, history)
}

/// The same by what rings need to know of the job.
pub fn fold_by(alloc: Global, plan: &TracePlan, history: &History) -> Result<Rings, NoMemory>
    ensures { IfOk result (λ r. r ≡ fold plan.now history.now.items) }
{
    let mut tracer = Tracer::new(alloc, plan)?;
    for p in 0..history.len() {
        tracer.take(plan, history.item(p))?;
    }
    tracer.finish(alloc, plan)
}
