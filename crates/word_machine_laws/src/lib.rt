//! The laws of the word machine, as functions with empty bodies: the rule that holds between any two steps, that every history is legal,
//! that every call site is whole or has a breakpoint, and that each loaded value fits. They hold for every job within the limits of
//! scripts and under every list of actors. While lines are led one by one, what comes later is read by nobody (`led`). `word_machine` has the definitions, and says what control, CPUs, polls and syncs are.
#![tactic(auto)]

mod led;

ghost use Rattle.std.specs.Prelude.{ℕ, suc, ◌≡◌, ◌≢◌, ◌↔◌, ◌+◌, ◌*◌, ◌<◌, ◌≤◌, true, List, ◌∷◌, reverse, length, map, replicate, slice_set, Some, None};
ghost use Rattle.std.specs.List.{range_with_len};
ghost use Rattle.ft_base.specs.declared.number.CpuNo.{CpuNo};
ghost use Rattle.ft_base.specs.declared.item.Item.{Item};
ghost use Rattle.ft_base.specs.declared.item.Ran.TheVariants.{List as ByList};
ghost use Rattle.ft_base.specs.declared.turn.Actor.{Actor};
ghost use Rattle.ft_base.specs.declared.turn.Actor.TheVariants.{Control as ByControl, Cpu as ByCpu};
ghost use Rattle.ft_base.specs.Job.{Job as PlainJob, commands, funcs};
ghost use Rattle.ft_hist.specs.Rules.{IsLegal, IsWhole};
ghost use Rattle.user_specs.specs.Bound.{call_bound_in};
ghost use Rattle.history_laws.specs.Bound.{items_of, calls_of, all_calls};
ghost use Rattle.word_map.specs.Words.{at_put};
ghost use Rattle.word_map.specs.Ops.{WordOp, Mark};
ghost use Rattle.word_machine.specs.Control.{control_next};
ghost use Rattle.word_machine.specs.Task.{OpenCall, Moment, InTramp, OwnSel, TaskState, task_start};
ghost use Rattle.word_machine.specs.Cpu.{cpu_next};
ghost use Rattle.word_machine.specs.Machine.{World, start, step, run, play, all_end, is_at_end, control_row, cpu_row, taken};
ghost use Rattle.word_machine.specs.Values.{tasks_in, copies_in};
ghost use Rattle.word_machine.specs.Rule.{MachineRule, IsWordJob};
ghost use Rattle.word_machine.specs.Limits.{IsLimited};
ghost use Rattle.word_machine.specs.Laws.{HasRoom, AllFit, IsSettled, IsAt, IsHeldFor, Takes, CpuTakes, IsOnWord, IsLinking, IsWriting, walked, copy_read, items_on, room_on, Runs};

pub use led::{
    a_command_that_is_led_begins, led_jobs_are_limited, lines_to_come_change_nothing,
    no_cpu_reads_lines, orders_grow_line_by_line,
};

/// The rule holds before the first step.
pub fn the_rule_holds_at_the_start()
    ensures { (job : PlainJob) → IsWordJob job → MachineRule job (start job) }
{}

/// Each step of an actor keeps the rule.
pub fn each_step_keeps_the_rule()
    ensures { (job : PlainJob) (actor : Actor) (s : World) → IsWordJob job → MachineRule job s → MachineRule job (step job actor s) }
{}

/// Whenever the rule holds, each value that a task would load next fits its step: the bytes of a fetch decode to an instruction that is the
/// site's target, a trampoline names a user of the job, and the list names one that the call has not visited.
pub fn each_value_fits_by_the_rule()
    ensures { (job : PlainJob) (s : World) (c t : ℕ) (top : OpenCall) (below : List OpenCall) (m : Moment) → IsWordJob job → MachineRule job s
        → IsAt job s c t top below m → Takes job s top m }
{}

/// The rule speaks of every job within the limits of scripts.
pub fn limited_jobs_are_word_jobs()
    ensures { (job : PlainJob) → IsLimited job → IsWordJob job }
{}

/// After every list of actors the clock has room.
pub fn the_clock_has_room()
    ensures { (job : PlainJob) (actors : List Actor) → IsLimited job → HasRoom (run job actors (start job)) }
{}

/// What code carries from step to step holds at the start: the rule, that control waits for somebody that there is, and that each word fits.
pub fn a_limited_job_runs_from_the_start()
    ensures { (job : PlainJob) → IsLimited job → Runs job (start job) }
{}

/// Each step of an actor keeps all that.
pub fn each_step_runs_on()
    ensures { (job : PlainJob) (actor : Actor) (s : World) → IsLimited job → Runs job s → Runs job (step job actor s) }
{}

/// So does each list of actors.
pub fn each_run_runs_on()
    ensures { (job : PlainJob) (actors : List Actor) → IsLimited job → Runs job (run job actors (start job)) }
{}

/// The same of a step as a row: an actor makes the operation that is its next. The layer that steps on real words takes it so.
pub fn each_row_runs_on()
    ensures control { (job : PlainJob) (s : World) (op : WordOp) → IsLimited job → Runs job s → control_next job s.control ≡ Some op → Runs job (control_row job s op) }
    ensures cpus { (job : PlainJob) (s : World) (c : ℕ) (op : WordOp) → IsLimited job → Runs job s → c < length job.quanta → cpu_next job (s.cpus c) ≡ Some op
        → Runs job (cpu_row job s c op) }
{}

/// Code holds lists where the definition has functions of numbers: the tasks of a CPU. A list of all tasks before their first acts stands
/// for the function at the start, and a stored element for a changed one.
pub fn a_list_holds_the_tasks()
    ensures start { (job : PlainJob) (n : ℕ) → tasks_in job (map (task_start job) (range_with_len 0 n)) ≡ task_start job }
    ensures put { (job : PlainJob) (tasks : List TaskState) (t : ℕ) (x : TaskState) → t < length tasks
        → tasks_in job (slice_set tasks t x) ≡ at_put (tasks_in job tasks) t x }
{}

/// The same of the copies that control knows to be in use.
pub fn a_list_holds_the_copies()
    ensures start { (n : ℕ) → copies_in (replicate n 0) ≡ (λ u. 0) }
    ensures put { (copies : List ℕ) (u copy : ℕ) → u < length copies → copies_in (slice_set copies u copy) ≡ at_put (copies_in copies) u copy }
{}

/// An actor is at its end exactly if it has no operation left.
pub fn an_actor_at_its_end_has_no_operation()
    ensures control { (job : PlainJob) (s : World) → (is_at_end job ByControl s ≡ true) ↔ (control_next job s.control ≡ None) }
    ensures cpus { (job : PlainJob) (s : World) (c : CpuNo) → IsLimited job → Runs job s → c.0 < length job.quanta
        → (is_at_end job (ByCpu c) s ≡ true) ↔ (cpu_next job (s.cpus c.0) ≡ None) }
{}

/// The next operation of each actor is on a word that the job has.
pub fn each_operation_is_on_a_word_of_the_job()
    ensures control { (job : PlainJob) (s : World) → IsLimited job → Runs job s → IsOnWord job (control_next job s.control) }
    ensures cpus { (job : PlainJob) (s : World) (c : ℕ) → IsLimited job → Runs job s → c < length job.quanta → IsOnWord job (cpu_next job (s.cpus c)) }
{}

/// Each value that a CPU's next operation gives fits it, as code can ask of a number; and a mark of a callback finds room for one more user
/// in the frame of its call.
pub fn each_value_that_a_cpu_takes_fits()
    ensures { (job : PlainJob) (s : World) (c : ℕ) (op : WordOp) → IsLimited job → Runs job s → c < length job.quanta → cpu_next job (s.cpus c) ≡ Some op
        → CpuTakes job (s.cpus c) (taken op s.words) }
{}

/// So the rule holds after every list of actors.
pub fn the_rule_holds_after_all_actors()
    ensures { (job : PlainJob) (actors : List Actor) → IsLimited job → MachineRule job (run job actors (start job)) }
{}

/// After every list of actors the history is legal.
pub fn every_history_is_legal()
    ensures { (job : PlainJob) (actors : List Actor) → IsLimited job → IsLegal job (reverse (run job actors (start job)).past) }
{}

/// After every list of actors the history has at most two items a command and `call_bound` a call of the scripts: as a whole, of each task,
/// and of the tasks of each CPU. So code can take the room for them all at its start.
pub fn every_history_is_bounded()
    ensures whole { (job : PlainJob) (actors : List Actor) → IsLimited job
        → length (reverse (run job actors (start job)).past) ≤ 2 * length (commands job) + call_bound_in job * all_calls job.tasks }
    ensures tasks { (job : PlainJob) (actors : List Actor) (t : ℕ) → IsLimited job
        → items_of t (reverse (run job actors (start job)).past) ≤ call_bound_in job * calls_of job t }
    ensures cpus { (job : PlainJob) (actors : List Actor) (c : ℕ) → IsLimited job
        → items_on job c (reverse (run job actors (start job)).past) ≤ room_on job c }
{}

/// A CPU that makes a mark next has room for it: its tasks have had fewer items than that bound, for which code takes the room at its start.
pub fn each_mark_of_a_cpu_finds_room()
    ensures { (job : PlainJob) (s : World) (c : ℕ) (item : Item) → IsLimited job → Runs job s → c < length job.quanta
        → cpu_next job (s.cpus c) ≡ Some (Mark item) → items_on job c s.past < room_on job c }
{}

/// The items of a CPU's tasks are the marks that the CPU makes: each of its own marks adds one to them, and no mark of another CPU or of
/// control does.
pub fn the_items_of_a_cpu_are_its_marks()
    ensures own { (job : PlainJob) (s : World) (c : ℕ) (item : Item) → IsLimited job → Runs job s → c < length job.quanta
        → cpu_next job (s.cpus c) ≡ Some (Mark item) → items_on job c (item ∷ s.past) ≡ suc (items_on job c s.past) }
    ensures others { (job : PlainJob) (s : World) (c other : ℕ) (item : Item) → IsLimited job → Runs job s → c < length job.quanta → other ≢ c
        → cpu_next job (s.cpus c) ≡ Some (Mark item) → items_on job other (item ∷ s.past) ≡ items_on job other s.past }
    ensures control { (job : PlainJob) (s : World) (c : ℕ) (item : Item) → control_next job s.control ≡ Some (Mark item)
        → items_on job c (item ∷ s.past) ≡ items_on job c s.past }
{}

/// And if all actors are at their ends it is whole.
pub fn every_ended_history_is_whole()
    ensures { (job : PlainJob) (actors : List Actor) → IsLimited job → all_end job (run job actors (start job)) ≡ true
        → IsWhole job (reverse (run job actors (start job)).past) }
{}

/// After every list of actors each call site is settled: its first byte is the breakpoint, or its bytes are those of its target after the
/// commands that have returned or after those that have begun; between commands they are the target's.
pub fn each_site_is_settled()
    ensures { (job : PlainJob) (actors : List Actor) (f : ℕ) → IsLimited job → f < funcs job → IsSettled job (run job actors (start job)) f }
{}

/// No task is in a trampoline that was freed or given to another user. From the decoding of the call until it has loaded the trampoline's
/// word, and then its user's state, that word names the user and the registration whose own trampoline this was when it was the site's
/// target. So a trampoline may be given to another user as soon as it is freed.
pub fn no_task_is_in_a_released_trampoline()
    ensures before_the_word { (job : PlainJob) (s : World) (c t : ℕ) (top : OpenCall) (below : List OpenCall) (slot : ℕ) → IsLimited job → Runs job s
        → IsAt job s c t top below (InTramp slot) → (u : ℕ) × (reg : ℕ) × IsHeldFor job s top slot u reg }
    ensures before_the_state { (job : PlainJob) (s : World) (c t : ℕ) (top : OpenCall) (below : List OpenCall) (u reg : ℕ) → IsLimited job → Runs job s
        → IsAt job s c t top below (OwnSel u reg) → (slot : ℕ) × IsHeldFor job s top slot u reg }
{}

/// No link is stored anew while a walker of the list is at its user and will follow it, also if the walk is held up by the call of a user's
/// act. So a user may be registered again as soon as it is unregistered.
pub fn no_link_is_stored_while_it_is_followed()
    ensures { (job : PlainJob) (s : World) (c t : ℕ) (top : OpenCall) (below : List OpenCall) (m : Moment) (u : ℕ) → IsLimited job → Runs job s
        → IsAt job s c t top below m → top.ran ≡ ByList → walked m ≡ Some u → IsLinking job s u → ⊥ }
{}

/// No copy of a user's filter and notrace set is written while somebody reads it.
pub fn no_copy_is_written_while_it_is_read()
    ensures { (job : PlainJob) (s : World) (c t : ℕ) (top : OpenCall) (below : List OpenCall) (m : Moment) (u copy : ℕ) → IsLimited job → Runs job s
        → IsAt job s c t top below m → copy_read m ≡ Some (u, copy) → IsWriting job s u copy → ⊥ }
{}

/// After every list of actors each value that a task would load next fits its step.
pub fn each_value_fits()
    ensures { (job : PlainJob) (actors : List Actor) (c t : ℕ) (top : OpenCall) (below : List OpenCall) (m : Moment) → IsLimited job
        → IsAt job (run job actors (start job)) c t top below m → Takes job (run job actors (start job)) top m }
{}

/// After every list of actors each word has a content of 64 bits.
pub fn each_word_fits()
    ensures { (job : PlainJob) (actors : List Actor) → IsLimited job → AllFit (run job actors (start job)).words }
{}

/// The rule holds at the end of the replay of a job's schedule.
pub fn the_rule_holds_after_a_play()
    ensures { (job : PlainJob) → IsLimited job → MachineRule job (play job) }
{}

/// The history of a replay is legal.
pub fn every_play_is_legal()
    ensures { (job : PlainJob) → IsLimited job → IsLegal job (reverse (play job).past) }
{}

/// And if all actors are at their ends it is whole.
pub fn every_ended_play_is_whole()
    ensures { (job : PlainJob) → IsLimited job → all_end job (play job) ≡ true → IsWhole job (reverse (play job).past) }
{}
