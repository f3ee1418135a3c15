//! When a poll ends, and what a CPU's tasks and their stacks stay. Each law is a function with an empty
//! body, whose clauses say it.

ghost use Rattle.std.specs.Prelude.{◌≡◌, ◌<◌, ℕ, Bool, true, not, List, [], ◌∷◌, length, Some, get_or};
ghost use Rattle.std.specs.List.{AllByRecursion as Each};
ghost use Rattle.ft_base.specs.declared.context.Ctx.{Ctx};
ghost use Rattle.ft_base.specs.declared.number.CallNo.{CallNo};
ghost use Rattle.ft_base.specs.Desk.{spec_at};
ghost use Rattle.ft_base.specs.Job.{Job, no_task};
ghost use Rattle.ft_base.specs.Kinds.{has_depth};
ghost use Rattle.ft_base.specs.WellFormed.{IsActNamed, IsScript};
ghost use Rattle.ft_base.specs.Acts.{AreRaised};
ghost use Rattle.ft_base.specs.Tasks.{has_acts, tasks_of};
ghost use Rattle.ft_hist.specs.Frames.{is_nil};
ghost use Rattle.word_map.specs.Ops.{Load};
ghost use Rattle.word_map.specs.Words.{Want};
ghost use Rattle.word_machine.specs.Task.{OpenCall, Polling, TaskState};
ghost use Rattle.word_machine.specs.Task.{begun_act, called_back};
ghost use Rattle.word_machine.specs.Task.{task_got, task_start};
ghost use Rattle.word_machine.specs.Task.{level_of, opened, quiet_word};
ghost use Rattle.word_machine.specs.Cpu.{Cpu, cpu_next, polled, with_word};
ghost use Rattle.word_machine.specs.Laws.{PresentTakes};
ghost use Rattle.task_core.specs.Framed.{AreFramed};
ghost use Rattle.task_core.specs.TaskInvariant.{TaskInvariant};
ghost use Rattle.cpu_core.specs.WholePoll.{IsBeforePoll, all_told, cpu_past, is_telling, stores_of};

/// A poll first loads the request. Then it stores the CPU's own word and the words of its tasks, those
/// of them that are to change. After as many stores, whatever values they give, it is over: the CPU has
/// acknowledged that request, each of these words is what it is to be, and nothing else has changed but
/// the count of steps.
pub fn a_poll_ends_once_all_have_told()
    ensures asks { (job : Job) (me : Cpu) → IsBeforePoll job me → cpu_next job me ≡ Some (Load Want) }
    ensures stores { (job : Job) (me : Cpu) (request : ℕ) (values : List ℕ) → IsBeforePoll job me
        → length values < stores_of job me request
        → is_telling (cpu_next job (cpu_past job me (request ∷ values))) ≡ true }
    ensures over { (job : Job) (me : Cpu) (request : ℕ) (values : List ℕ) → IsBeforePoll job me
        → length values ≡ stores_of job me request
        → cpu_past job me (request ∷ values) ≡ polled job (all_told job me request) }
    ensures told { (job : Job) (me : Cpu) (request : ℕ) → let tasks = (all_told job me request).tasks in
        Each (λ t. (tasks t).word ≡ quiet_word request (tasks t)) (tasks_of job me.number) }
{}

/// No call without a frame owes anything, and there are no more frames than there may be: so it is
/// before the first call, and stays so when a call is entered, when a user is called back for which,
/// if it is a graph or profile user, there is room, at the end of a dispatch, and when a call returns.
pub fn stacks_stay_framed()
    ensures empty { (frames : ℕ) → AreFramed frames [] }
    ensures entered { (frames : ℕ) (call : CallNo) (ctx : Ctx) (f : ℕ) (scripted : Bool) (cs : List OpenCall)
        → AreFramed frames cs → AreFramed frames (opened call ctx f scripted ∷ cs) }
    ensures called_back { (job : Job) (c : OpenCall) (below : List OpenCall) (u reg place : ℕ)
        → AreFramed job.frames (c ∷ below) → (has_depth (spec_at job u).kind ≡ true → level_of below < job.frames)
        → AreFramed job.frames (called_back job c below u reg place ∷ below) }
    ensures closed { (frames : ℕ) (c : OpenCall) (below : List OpenCall) → AreFramed frames (c ∷ below)
        → AreFramed frames (record c { framed = not (is_nil c.users) } ∷ below) }
    ensures returned { (frames : ℕ) (c : OpenCall) (below : List OpenCall)
        → AreFramed frames (c ∷ below) → AreFramed frames below }
{}

/// A task keeps its invariant, by the values that its CPU takes alone: it is so before its first act, if its
/// returns have their calls and its interrupts come and go in order; where a poll begins an act or is
/// done with it; when its word is told; and whatever value that fits its next operation gives.
pub fn tasks_keep_their_invariant()
    ensures start { (job : Job) (t : ℕ) → let acts = (get_or job.tasks t no_task).acts in
        IsScript job 0 acts → AreRaised [] acts → TaskInvariant job (task_start job t) }
    ensures begun { (job : Job) (x : TaskState) → TaskInvariant job x → x.moment ≡ Polling → has_acts x.acts ≡ true
        → TaskInvariant job (begun_act x x.acts) }
    ensures told { (job : Job) (r : ℕ) (x : TaskState) → TaskInvariant job x → TaskInvariant job (with_word r x) }
    ensures got { (job : Job) (t v : ℕ) (x : TaskState) → Each (λ s. IsActNamed job s.act) job.users
        → TaskInvariant job x → PresentTakes job x x.moment v → TaskInvariant job (task_got job t x x.moment v) }
{}
