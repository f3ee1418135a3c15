//! What is kept of a history for a text.

ghost use Rattle.std.specs.Prelude.{◌≡◌, IfOk, []};
ghost use Rattle.ft_base.specs.Job.{Job as PlainJob};
ghost use Rattle.std.specs.List.{list_any};
ghost use Rattle.trace_views.specs.Words.{is_graph};
ghost use Rattle.trace_print.specs.Kept.{ForSummary, Has, content_for, content_of};

use crate::names::Names;
use ft_base::{Item, Kind, NoMemory};
use ft_hist::History;
use ft_job::Job;
use ft_machine::Taker;
use ft_words::Form;
use std::alloc::Global;
use trace_rings::trace_plan;
use trace_views::{FunctionView, ProfileView, RingsView, Totals, returned_with};
use user_specs::Spec;

/// What a text needs of the items that a job has made: all of them, or what they come to.
#[derive(Drop)]
pub enum Kept {
    /// All items.
    History(History),
    /// All items, for the form graph.
    Graph(History),
    /// Nothing, for the form graph: if no user is a graph user, it has no lines.
    NoGraph,
    /// The lines of the form function.
    Function(FunctionView),
    /// What the users were called back for, for the form profile.
    Profile(ProfileView),
    /// How many commands have returned, for the form enabled.
    Returned(u32),
    /// Nothing, for the form modules: its text is of the job's lines alone.
    Nothing,
    /// What the rings hold, for the form rings.
    Rings(RingsView),
    /// How many items there are, and how many of some kinds, for the summary.
    Totals(Totals),
}

impl Kept {
    /// What the text of a form needs, and no more, before the first item of a job. The error says that
    /// memory ran out.
    pub fn for_form(alloc: Global, job: &Job, form: Form) -> Result<Kept, NoMemory>
        ensures none { IfOk result (λ kept. Has job.now [] kept) }
        ensures form { IfOk result (λ kept. content_of kept ≡ content_for form) }
    {
        match form {
            Form::Log => Ok(Kept::History(History::with_room(alloc, 0)?)),
            Form::Graph => {
                if has_graph(job) {
                    Ok(Kept::Graph(History::with_room(alloc, 0)?))
                } else {
                    Ok(Kept::NoGraph)
                }
            }
            Form::Function => {
                let names = Names::new(alloc, job)?;
                Ok(Kept::Function(FunctionView::new(alloc, &names)?))
            }
            Form::Profile => {
                let names = Names::new(alloc, job)?;
                Ok(Kept::Profile(ProfileView::new(alloc, &names)?))
            }
            Form::Enabled => Ok(Kept::Returned(0)),
            Form::Modules => Ok(Kept::Nothing),
            Form::Rings => {
                let names = Names::new(alloc, job)?;
                let plan = trace_plan(alloc, job)?;
                Ok(Kept::Rings(RingsView::new(alloc, &names, plan)?))
            }
        }
    }

    /// What the summary needs, before the first item of a job.
    pub fn for_summary() -> Kept
        ensures none { (job : PlainJob) → Has job [] result }
        ensures form { content_of result ≡ ForSummary }
    {
        Kept::Totals(Totals::none())
    }
}

/// Whether the user is a graph user.
fn is_graph_user(user: &Spec) -> bool
    ensures { result ≡ is_graph user.now.kind }
{
    matches!(user.kind, Kind::Graph)
}

/// Whether one of the users is a graph user.
fn has_graph_user(users: &[Spec]) -> bool
    ensures { result ≡ list_any (λ user. is_graph user.kind) users.now }
{
    users.iter().any(|user| is_graph_user(user))
}

/// Whether a user of the job is a graph user.
fn has_graph(job: &Job) -> bool
    ensures { result ≡ list_any (λ user. is_graph user.kind) job.now.users }
{
    has_graph_user(job.specs())
}

impl Taker for Kept {
    ghost use Rattle.trace_print.specs.Kept.{HasRoom, HasTaken};

    ghost took = { HasTaken };

    ghost has_room = { HasRoom };

    #[inline(always)]
    fn make_room(&mut self) -> Result<(), NoMemory> {
        match self {
            Kept::History(history) => history.make_room(),
            Kept::Graph(history) => history.make_room(),
            Kept::Function(view) => view.make_room(),
            Kept::NoGraph
            | Kept::Profile(_)
            | Kept::Returned(_)
            | Kept::Nothing
            | Kept::Rings(_)
            | Kept::Totals(_) => Ok(()),
        }
    }

    fn take(&mut self, item: Item) {
        match self {
            Kept::History(history) => history.push(item),
            Kept::Graph(history) => history.push(item),
            Kept::NoGraph => {}
            Kept::Function(view) => view.take(&item),
            Kept::Profile(view) => view.take(&item),
            Kept::Returned(returned) => *returned = returned_with(*returned, &item),
            Kept::Nothing => {}
            Kept::Rings(view) => view.take(&item),
            Kept::Totals(totals) => totals.add(&item),
        }
    }
}
