//! The lines of the view function: one for each entry callback of a function tracer.

ghost use Rattle.std.specs.Prelude.{◌≡◌, ◌<◌, ◌+◌, ◌^◌, [], ◌∷◌, ◌++◌, ℕ, true, List, length, reverse, get_or, IfOk, OnErr, OnOk};
ghost use Rattle.ft_base.specs.declared.item.Item.{Item};
ghost use Rattle.ft_base.specs.declared.item.Item.TheVariants.{Back};
ghost use Rattle.ft_base.specs.Desk.{spec_at};
ghost use Rattle.ft_base.specs.Job.{Job as PlainJob};
ghost use Rattle.ft_base.specs.Kinds.{is_function};
ghost use Rattle.ft_hist.specs.Rules.{IsLegal, IsLegalPast};
ghost use Rattle.ft_hist.specs.Telling.{past_at};
ghost use Rattle.trace_views.specs.FunctionText.{function_line, function_part};
ghost use Rattle.trace_views.specs.OpenCalls.{IsFollowed, function_line_text};
ghost use Rattle.trace_views.specs.RingLines.{AreBackLines};
ghost use Rattle.trace_views.specs.Words.{item_texts, lines_text};

use crate::counts::counted;
use crate::named::Named;
use crate::open_calls::OpenCalls;
use ft_base::{CallNo, Ctx, FuncNo, Item, NoMemory, TaskNo, UserNo};
use ft_hist::History;
use std::alloc::Global;

/// A line: the place of the entry callback, and its task; of the task's latest call the context and
/// the called function, and what that is called from, none if no other call is open; and the user.
#[derive(Clone, Copy)]
pub struct FunctionLine {
    /// The place of the entry callback.
    pub place: u32,
    /// Its task.
    pub task: TaskNo,
    /// The context of the task's latest call.
    pub ctx: Ctx,
    /// The function that was called.
    pub func: FuncNo,
    /// What it was called from.
    pub parent: Option<FuncNo>,
    /// The user.
    pub user: UserNo,
}

/// The lines of a job's items so far. It takes the items one after the other, each when it is marked,
/// and room for an item's line before.
#[derive(Drop)]
pub struct FunctionView {
    /// Whether each user is a function tracer.
    tracers: Vec<bool>,
    /// The calls that are open.
    open: OpenCalls,
    /// The place of the next item.
    place: u32,
    /// The lines.
    lines: Vec<FunctionLine>,
}

impl FunctionView {
    ghost use Rattle.trace_views.specs.FunctionViews.{HasFunction, HasRoom};

    /// Before the first item of a job. The error says that memory ran out.
    pub fn new<N: Named>(alloc: Global, names: &N) -> Result<FunctionView, NoMemory>
        ensures { IfOk result (λ view. HasFunction (N.job names.now) [] view) }
    {
        let tracers = tracers(alloc, names)?;
        let open = OpenCalls::new(alloc, names)?;
        Ok(FunctionView {
            tracers,
            open,
            place: 0,
            lines: Vec::new(alloc),
        })
    }

    /// Takes room for the line of the next item, if there is none. The error says that memory ran out.
    #[inline(always)]
    pub fn make_room(&mut self) -> Result<(), NoMemory>
        ensures same { (job : PlainJob) (past : List Item) → HasFunction job past self.old → HasFunction job past self.new }
        ensures room { OnOk result (HasRoom self.new) }
        ensures kept { HasRoom self.old → HasRoom self.new }
        ensures full { OnErr result (HasRoom self.old → ⊥) }
    {
        if self.lines.len() < self.lines.capacity() {
            return Ok(());
        }
        self.lines.reserve(1).map_err(|_| NoMemory)
    }

    /// Takes the next item of the job.
    pub fn take(&mut self, item: &Item)
        requires room { HasRoom self.old }
        requires next { (job : PlainJob) × (past : List Item) × HasFunction job past self.old
            × IsLegalPast job (item.now ∷ past) × (length past + 1 < 2 ^ 32) }
        ensures { (job : PlainJob) (past : List Item) → HasFunction job past self.old
            → IsLegalPast job (item.now ∷ past) → HasFunction job (item.now ∷ past) self.new }
    {
        self.push_part(item);
        self.open.follow(item);
        self.place += 1;
    }

    /// The lines: their texts are what the view function prints of the items so far.
    pub fn lines(&self) -> &[FunctionLine]
        ensures { (job : PlainJob) (past : List Item) → HasFunction job past self.now
            → lines_text (function_line_text job) result.now ≡ item_texts (function_part job) [] (reverse past) }
    {
        self.lines.as_slice()
    }

    /// Adds the line of the next item, if it has one.
    fn push_part(&mut self, item: &Item)
        requires room { HasRoom self.old }
        requires next { (job : PlainJob) × (past : List Item) × HasFunction job past self.old × IsLegalPast job (item.now ∷ past) }
        ensures text { (job : PlainJob) (past : List Item) → HasFunction job past self.old
            → IsLegalPast job (item.now ∷ past) → lines_text (function_line_text job) self.new.lines.items
            ≡ lines_text (function_line_text job) self.old.lines.items ++ function_part job past item.now [] }
        ensures rest { (self.new.tracers ≡ self.old.tracers) × (self.new.open ≡ self.old.open) × (self.new.place ≡ self.old.place) }
    {
        if let Item::Back { call, user } = *item {
            if self.is_tracer(user) {
                let line = back_line(&self.open, self.place, call, user);
                self.lines.push_reserved(line);
            }
        }
    }

    /// Whether a user is a function tracer.
    fn is_tracer(&self, user: UserNo) -> bool
        ensures { result ≡ get_or self.now.tracers.items user.0 true }
    {
        match self.tracers.get(user.0 as usize) {
            Some(is) => *is,
            None => true,
        }
    }
}

/// Whether each user is a function tracer, as one would be that the job doesn't have. The error says that
/// memory ran out.
fn tracers<N: Named>(alloc: Global, names: &N) -> Result<Vec<bool>, NoMemory>
    ensures { IfOk result (λ tracers. (u : ℕ) → get_or tracers.items u true ≡ is_function (spec_at (N.job names.now) u).kind) }
{
    let users = names.users();
    let mut tracers = Vec::with_capacity(alloc, users as usize).map_err(|_| NoMemory)?;
    for u in 0..users {
        let user = UserNo(u);
        tracers.push_reserved(names.kind(user).is_function());
    }
    Ok(tracers)
}

/// The line of the entry callback of a user in a call, which is at a place. `stacks` has the calls that are
/// open there.
pub(crate) fn back_line(stacks: &OpenCalls, place: u32, call: CallNo, user: UserNo) -> FunctionLine
    requires { (job : PlainJob) × (past : List Item) × IsFollowed job past stacks.now × IsLegalPast job (Back call user ∷ past) }
    ensures place { result.place ≡ place }
    ensures user { result.user ≡ user }
    ensures text { (job : PlainJob) (past : List Item) → IsFollowed job past stacks.now → IsLegalPast job (Back call user ∷ past)
        → place ≡ length past → function_line_text job result ≡ function_line job past call user.0 }
{
    let top = stacks.top(call.task);
    FunctionLine {
        place,
        task: call.task,
        ctx: top.ctx,
        func: top.func,
        parent: stacks.parent(call.task),
        user,
    }
}

/// The lines of a legal history, view function. The error says that memory ran out.
pub fn function_lines<N: Named>(
    alloc: Global,
    names: &N,
    history: &History,
) -> Result<Vec<FunctionLine>, NoMemory>
    requires { IsLegal (N.job names.now) history.now.items }
    ensures { IfOk result (λ lines. lines_text (function_line_text (N.job names.now)) lines.items
        ≡ item_texts (function_part (N.job names.now)) [] history.now.items) }
{
    let mut view = FunctionView::new(alloc, names)?;
    for place in 0..history.len() {
        view.make_room()?;
        view.take(history.item(place));
    }
    Ok(view.lines)
}

/// Adds the line of the item at a place, if it is an entry callback. `stacks` has the calls that are
/// open there.
fn push_back(
    lines: &mut Vec<FunctionLine>,
    history: &History,
    place: u32,
    stacks: &OpenCalls,
) -> Result<(), NoMemory>
    requires within { place < length history.now.items }
    requires calls { (job : PlainJob) × IsLegal job history.now.items
        × IsFollowed job (past_at place history.now.items) stacks.now }
    ensures { OnOk result ((job : PlainJob) → IsLegal job history.now.items
        → IsFollowed job (past_at place history.now.items) stacks.now
        → AreBackLines job history.now.items place lines.old.items
        → AreBackLines job history.now.items (place + 1) lines.new.items) }
{
    match *history.item(place) {
        Item::Back { call, user } => {
            let line = back_line(stacks, place, call, user);
            lines.push(line).map_err(|_| NoMemory)
        }
        _ => Ok(()),
    }
}

/// The lines of all entry callbacks of a legal history, whatever their users' kinds. The error says
/// that memory ran out.
pub(crate) fn back_lines<N: Named>(
    alloc: Global,
    names: &N,
    history: &History,
) -> Result<Vec<FunctionLine>, NoMemory>
    requires { IsLegal (N.job names.now) history.now.items }
    ensures { IfOk result (λ lines. AreBackLines (N.job names.now) history.now.items
        (length history.now.items) lines.items) }
{
    let room = counted(history).backs as usize;
    let mut lines = Vec::with_capacity(alloc, room).map_err(|_| NoMemory)?;
    let mut open = OpenCalls::new(alloc, names)?;
    for place in 0..history.len() {
        push_back(&mut lines, history, place, &open)?;
        open.follow(history.item(place));
    }
    Ok(lines)
}
