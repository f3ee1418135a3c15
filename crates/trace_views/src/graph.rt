//! The lines of a history, view graph: for each graph user its calls as nested blocks.

ghost use Rattle.std.specs.Prelude.{◌≡◌, ℕ, ◌+◌, ◌-◌, ◌<◌, ◌≤◌, ◌^◌, ◌++◌, List, [], Option, Some, None, length, reverse, drop, slice_set, slice_index, slice_index_or, IfOk, OnOk, IfSome};
ghost use Rattle.ft_base.specs.declared.item.Item.{Item as PlainItem};
ghost use Rattle.ft_base.specs.Job.{Job as PlainJob};
ghost use Rattle.ft_base.specs.Desk.{spec_at};
ghost use Rattle.ft_hist.specs.Rules.{IsLegal};
ghost use Rattle.trace_views.specs.Places.{part_at};
ghost use Rattle.trace_views.specs.Words.{item_texts, numbered_texts, lines_text, is_graph};
ghost use Rattle.trace_views.specs.TaskStacks.{stack_at, with_top};
ghost use Rattle.trace_views.specs.Leaves.{leaf_exits};
ghost use Rattle.trace_views.specs.GraphText.{graph_part, user_graph};
ghost use Rattle.trace_views.specs.GraphLines.{graph_line_text, top_at, with_back, first_leaf, time_to, is_at, IsWalk, IsWalkAt};

use crate::counts::counted;
use crate::graph_line::{GraphLine, Shown};
use crate::leaves::leaf_exits;
use crate::named::Named;
use crate::stacks::Stacks;
use ft_base::{FuncNo, Item, Kind, NoMemory, TaskNo, UserNo};
use ft_hist::History;
use std::alloc::Global;

/// An open call: the called function, and how often the user was called back in it.
#[derive(Clone, Copy)]
struct GraphCall {
    func: FuncNo,
    backs: u32,
}

/// Where a user is in a history.
#[derive(Drop)]
struct Walk {
    /// The open calls of each task.
    open: Stacks<GraphCall>,
    /// How often the user was called back in the open calls of each task.
    levels: Vec<u32>,
    /// The place of the user's latest callback in each task.
    latest: Vec<Option<u32>>,
    /// For each entry callback that is still to come the place of its exit if it is a leaf, the
    /// latest first.
    leaves: Vec<Option<u32>>,
}

impl Walk {
    /// That of a history's start.
    fn new(alloc: Global, tasks: u32, leaves: Vec<Option<u32>>) -> Result<Walk, NoMemory>
        ensures { IfOk result (λ walk. (u : ℕ) (items : List PlainItem) → leaves.items ≡ reverse (leaf_exits u 0 items)
            → IsWalk u tasks [] items walk) }
    {
        let open = Stacks::new(alloc, tasks)?;
        let levels = vec![in alloc; 0; tasks as usize].map_err(|_| NoMemory)?;
        let latest = vec![in alloc; None; tasks as usize].map_err(|_| NoMemory)?;
        Ok(Walk {
            open,
            levels,
            latest,
            leaves,
        })
    }

    /// The latest open call of a task.
    fn top(&self, task: TaskNo) -> GraphCall
        requires task { task.0 < length self.now.open }
        requires open { 0 < length (stack_at self.now.open task.0) }
        ensures { result ≡ top_at self.now.open task.0 }
    {
        match self.open.top(task) {
            Some(call) => call,
            None => unreachable!(),
        }
    }

    /// The latest open call of a task, as its lines show it.
    fn shown(&self, task: TaskNo) -> Shown
        requires task { task.0 < length self.now.open }
        requires level { task.0 < length self.now.levels.items }
        requires open { 0 < length (stack_at self.now.open task.0) }
        requires backs { (top_at self.now.open task.0).backs ≤ slice_index self.now.levels.items task.0 }
        ensures same { result.task ≡ task }
        ensures func { result.func ≡ (top_at self.now.open task.0).func }
        ensures shown { result.level ≡ slice_index self.now.levels.items task.0 - (top_at self.now.open task.0).backs }
    {
        let top = self.top(task);
        Shown {
            task,
            func: top.func,
            level: self.levels[task.0 as usize] - top.backs,
        }
    }

    /// How long the next entry callback takes, which is at a place, if it is a leaf.
    fn time(&self, place: u32) -> Option<u32>
        requires { IfSome (first_leaf self.now.leaves.items) (λ exit. place ≤ exit) }
        ensures { result ≡ time_to place (first_leaf self.now.leaves.items) }
    {
        match self.leaves.last() {
            Some(Some(exit)) => Some(*exit - place),
            _ => None,
        }
    }

    /// Whether an exit of the user is that of a leaf: the entry callback that it belongs to is the
    /// user's latest callback in the task.
    fn ends_leaf(&self, task: TaskNo, entry: u32) -> bool
        requires { task.0 < length self.now.latest.items }
        ensures { result ≡ is_at entry (slice_index_or self.now.latest.items task.0 None) }
    {
        match self.latest[task.0 as usize] {
            Some(place) => place == entry,
            None => false,
        }
    }

    /// Takes in an entry callback of the user at a place.
    fn back(&mut self, place: u32, task: TaskNo)
        requires task { task.0 < length self.old.open }
        requires levels { task.0 < length self.old.levels.items }
        requires latest { task.0 < length self.old.latest.items }
        requires open { 0 < length (stack_at self.old.open task.0) }
        requires room { (top_at self.old.open task.0).backs + 1 < 2 ^ 32 }
        requires more { slice_index self.old.levels.items task.0 + 1 < 2 ^ 32 }
        ensures stacks { self.new.open ≡ slice_set self.old.open task.0 (with_top (with_back (top_at self.old.open task.0)) (stack_at self.old.open task.0)) }
        ensures counts { self.new.levels.items ≡ slice_set self.old.levels.items task.0 (slice_index self.old.levels.items task.0 + 1) }
        ensures places { self.new.latest.items ≡ slice_set self.old.latest.items task.0 (Some place) }
        ensures leaves { reverse self.new.leaves.items ≡ drop 1 (reverse self.old.leaves.items) }
    {
        let top = self.top(task);
        self.open.set_top(
            task,
            GraphCall {
                backs: top.backs + 1,
                ..top
            },
        );
        self.levels[task.0 as usize] += 1;
        self.latest[task.0 as usize] = Some(place);
        let _ = self.leaves.pop();
    }

    /// Takes in the return of a task's latest open call.
    fn leave(&mut self, task: TaskNo)
        requires task { task.0 < length self.old.open }
        requires levels { task.0 < length self.old.levels.items }
        requires open { 0 < length (stack_at self.old.open task.0) }
        requires backs { (top_at self.old.open task.0).backs ≤ slice_index self.old.levels.items task.0 }
        ensures stacks { self.new.open ≡ slice_set self.old.open task.0 (drop 1 (stack_at self.old.open task.0)) }
        ensures counts { self.new.levels.items ≡ slice_set self.old.levels.items task.0
            (slice_index self.old.levels.items task.0 - (top_at self.old.open task.0).backs) }
        ensures latest { self.new.latest ≡ self.old.latest }
        ensures leaves { self.new.leaves ≡ self.old.leaves }
    {
        let top = self.top(task);
        self.levels[task.0 as usize] -= top.backs;
        self.open.pop(task);
    }

    /// Takes in the item at a place.
    fn follow(&mut self, history: &History, place: u32, user: UserNo) -> Result<(), NoMemory>
        requires place { place < length history.now.items }
        requires size { length history.now.items < 2 ^ 32 }
        requires so_far { (job : PlainJob) × IsWalkAt job user.0 place history.now.items self.old }
        ensures { OnOk result ((job : PlainJob) → IsWalkAt job user.0 place history.now.items self.old
            → IsWalkAt job user.0 (place + 1) history.now.items self.new) }
    {
        match *history.item(place) {
            Item::Enter { call, func, .. } => {
                self.open.push(call.task, GraphCall { func, backs: 0 })
            }
            Item::Ret { call, .. } => {
                self.leave(call.task);
                Ok(())
            }
            Item::Back { call, user: whose } => {
                if whose == user {
                    self.back(place, call.task);
                }
                Ok(())
            }
            Item::Exit {
                call,
                user: whose,
                ..
            } => {
                if whose == user {
                    self.latest[call.task.0 as usize] = Some(place);
                }
                Ok(())
            }
            _ => Ok(()),
        }
    }
}

/// Adds a line.
fn add_line(lines: &mut Vec<GraphLine>, line: GraphLine) -> Result<(), NoMemory>
    ensures { OnOk result ((job : PlainJob) → lines_text (graph_line_text job) lines.new.items
        ≡ lines_text (graph_line_text job) lines.old.items ++ graph_line_text job line) }
{
    lines.push(line).map_err(|_| NoMemory)
}

/// Adds the line that the item at a place prints for the user, if it prints one.
fn add_part(
    lines: &mut Vec<GraphLine>,
    history: &History,
    place: u32,
    user: UserNo,
    walk: &Walk,
) -> Result<(), NoMemory>
    requires place { place < length history.now.items }
    requires so_far { (job : PlainJob) × IsWalkAt job user.0 place history.now.items walk.now }
    ensures { OnOk result ((job : PlainJob) → lines_text (graph_line_text job) lines.new.items
        ≡ lines_text (graph_line_text job) lines.old.items ++ part_at (graph_part job user.0) place history.now.items) }
{
    match *history.item(place) {
        Item::Back { call, user: whose } => {
            if whose != user {
                return Ok(());
            }
            let line = GraphLine::Entry {
                shown: walk.shown(call.task),
                time: walk.time(place),
            };
            add_line(lines, line)
        }
        Item::Exit {
            call,
            user: whose,
            entry,
        } => {
            if whose != user || walk.ends_leaf(call.task, entry) {
                return Ok(());
            }
            let line = GraphLine::Exit {
                shown: walk.shown(call.task),
                time: place - entry,
            };
            add_line(lines, line)
        }
        _ => Ok(()),
    }
}

/// Adds the lines of a user.
fn add_user<N: Named>(
    alloc: Global,
    lines: &mut Vec<GraphLine>,
    names: &N,
    history: &History,
    user: UserNo,
) -> Result<(), NoMemory>
    requires { IsLegal (N.job names.now) history.now.items }
    ensures { OnOk result (lines_text (graph_line_text (N.job names.now)) lines.new.items
        ≡ lines_text (graph_line_text (N.job names.now)) lines.old.items ++ item_texts (graph_part (N.job names.now) user.0) [] history.now.items) }
{
    let tasks = names.tasks();
    let leaves = leaf_exits(alloc, history, tasks, user)?;
    let mut walk = Walk::new(alloc, tasks, leaves)?;
    for place in 0..history.len() {
        add_part(lines, history, place, user, &walk)?;
        walk.follow(history, place, user)?;
    }
    Ok(())
}

/// Whether a user is a graph user.
fn is_graph(kind: Kind) -> bool
    ensures { result ≡ is_graph kind }
{
    matches!(kind, Kind::Graph)
}

/// Adds what a user prints: if it is a graph user, a line with its name and its lines.
fn add_graph<N: Named>(
    alloc: Global,
    lines: &mut Vec<GraphLine>,
    names: &N,
    history: &History,
    user: UserNo,
) -> Result<(), NoMemory>
    requires { IsLegal (N.job names.now) history.now.items }
    ensures { OnOk result (lines_text (graph_line_text (N.job names.now)) lines.new.items
        ≡ lines_text (graph_line_text (N.job names.now)) lines.old.items ++ user_graph (N.job names.now) history.now.items user.0 (spec_at (N.job names.now) user.0)) }
{
    if !is_graph(names.kind(user)) {
        return Ok(());
    }
    add_line(lines, GraphLine::User(user))?;
    add_user(alloc, lines, names, history, user)
}

/// The lines of a legal history, view graph. The error says that memory ran out.
pub fn graph_lines<N: Named>(
    alloc: Global,
    names: &N,
    history: &History,
) -> Result<Vec<GraphLine>, NoMemory>
    requires { IsLegal (N.job names.now) history.now.items }
    ensures { IfOk result (λ lines. lines_text (graph_line_text (N.job names.now)) lines.items
        ≡ numbered_texts (user_graph (N.job names.now) history.now.items) 0 (N.job names.now).users) }
{
    let users = names.users();
    // Room for all lines at once: one that grows as they come would be copied to ever larger places.
    let counts = counted(history);
    let room = users as usize + counts.backs as usize + counts.exits as usize;
    let mut lines = Vec::with_capacity(alloc, room).map_err(|_| NoMemory)?;
    for u in 0..users {
        add_graph(alloc, &mut lines, names, history, UserNo(u))?;
    }
    Ok(lines)
}
