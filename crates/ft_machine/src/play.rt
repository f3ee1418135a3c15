//! A replay of a job's schedule.

ghost use Rattle.std.specs.Prelude.{List, ◌≡◌, true, [], reverse, IfErr, IfOk, OnErr, OnOk};
ghost use Rattle.ft_base.specs.declared.item.Item.{Item};
ghost use Rattle.ft_hist.specs.Rules.{IsLegal, IsLegalPast, IsWhole};
ghost use Rattle.ft_base.specs.Job.{Job as PlainJob};
ghost use Rattle.word_machine.specs.Machine.{World as State, all_end, play, played, step};
ghost use Rattle.ft_machine.specs.MachineStates.{IsAt};
ghost use Rattle.ft_machine.specs.Replays.{IsBeginning};

use crate::cpus::CpuRoom;
use crate::start::new_world;
use crate::taker::Taker;
use crate::world::World;
use ft_base::{Actor, NoMemory};
use ft_hist::History;
use ft_job::Job;
use ft_schedule::Player;
use std::alloc::Global;

/// What a replay came to.
#[derive(Drop)]
pub struct Outcome {
    /// What happened, from the start to the end of the replay.
    pub history: History,
    /// Whether every actor is at its end.
    pub ended: bool,
}

// After how many turns it is asked again whether every actor is at its end.
const TURNS_TO_ASK: u32 = 64;

/// Lets the actors of a player step, up to a moment when every actor is at its end. That is asked at
/// some turns only: steps after the end change nothing, and to ask costs as much as a step. The error
/// says that memory ran out after some of the steps: their items are the first of the same replay.
fn play<T: Taker>(world: &mut World, mut player: Player, taker: &mut T) -> Result<(), NoMemory>
    requires { (job : PlainJob) × (s : State) × (first : T) × IsAt job s world.old × T.took job s.past first taker.old }
    ensures ok { OnOk result ((job : PlainJob) (s : State) (first : T) → IsAt job s world.old → T.took job s.past first taker.old
        → IsAt job (played job player.entry s) world.new × T.took job (played job player.entry s).past first taker.new) }
    ensures err { OnErr result ((job : PlainJob) (s : State) (first : T) → IsAt job s world.old → T.took job s.past first taker.old
        → (t : State) × IsAt job t world.new × T.took job t.past first taker.new × IsBeginning t.past (played job player.entry s).past) }
{
    taker.make_room()?;
    let mut turns: u32 = 0;
    while let Some(actor) = player.next_actor() {
        step_into(world, actor, taker)?;
        turns = turns.wrapping_add(1);
        if turns % TURNS_TO_ASK == 0 && world.all_end() {
            return Ok(());
        }
    }
    Ok(())
}

/// Lets an actor step. A taker takes the item that it marks, if any, and makes room for the next one.
/// That is after one step and before another, since within a step nothing may fail: an actor that has
/// made its operation can't take it back. The error says that memory ran out, after this step.
fn step_into<T: Taker>(world: &mut World, actor: Actor, taker: &mut T) -> Result<(), NoMemory>
    requires room { T.has_room taker.old }
    requires took { (job : PlainJob) × (s : State) × (first : T) × IsAt job s world.old × T.took job s.past first taker.old }
    ensures took { (job : PlainJob) (s : State) (first : T) → IsAt job s world.old → T.took job s.past first taker.old
        → IsAt job (step job actor s) world.new × T.took job (step job actor s).past first taker.new }
    ensures room { OnOk result (T.has_room taker.new) }
{
    if let Some(item) = world.step(actor) {
        taker.take(item);
        taker.make_room()?;
    }
    Ok(())
}

/// Plays the job's schedule up to the first moment when every actor is at its end, or else to the
/// schedule's end. A taker takes each item when it is marked, and no item is kept beside. The answer is
/// whether every actor is at its end. A taker may take room for an item before the step that marks it,
/// and all else takes its memory before the first step. The only fault is out of memory: then the taker
/// has taken the first items of the same replay, which are legal too.
pub fn replay_into<T: Taker>(alloc: Global, job: &Job, taker: &mut T) -> Result<bool, NoMemory>
    requires { T.took job.now [] taker.old taker.old }
    ensures taken { IfOk result (λ _. T.took job.now (play job.now).past taker.old taker.new) }
    ensures ended { IfOk result (λ ended. ended ≡ all_end job.now (play job.now)) }
    ensures legal { IfOk result (λ _. IsLegalPast job.now (play job.now).past) }
    ensures whole { IfOk result (λ ended. ended ≡ true → IsWhole job.now (reverse (play job.now).past)) }
    ensures fault { IfErr result (λ _. (past : List Item) × IsBeginning past (play job.now).past × IsLegalPast job.now past
        × T.took job.now past taker.old taker.new) }
{
    let mut world = new_world(alloc, job, CpuRoom::ForOne)?;
    let player = Player::new(job.schedule(), job.shape().cpus);
    play(&mut world, player, taker)?;
    Ok(world.all_end())
}

/// The same, of which the history has the items. Its only fault is out of memory.
pub fn replay(alloc: Global, job: &Job) -> Result<Outcome, NoMemory>
    ensures history { IfOk result (λ o. o.history.items ≡ reverse (play job.now).past) }
    ensures ended { IfOk result (λ o. o.ended ≡ all_end job.now (play job.now)) }
    ensures legal { IfOk result (λ o. IsLegal job.now o.history.items) }
    ensures whole { IfOk result (λ o. o.ended ≡ true → IsWhole job.now o.history.items) }
{
    let mut history = History::with_room(alloc, 0)?;
    let ended = replay_into(alloc, job, &mut history)?;
    Ok(Outcome { history, ended })
}
