//! Laws of replays and of sites.

ghost use Rattle.std.specs.Prelude.{◌≡◌, ◌↔◌, ◌<◌, ℕ, true, List, [], length, map, None, Some};
ghost use Rattle.ft_base.specs.declared.item.Item.{Item};
ghost use Rattle.ft_base.specs.Desk.{desk, sited};
ghost use Rattle.ft_base.specs.Job.{Job as PlainJob};
ghost use Rattle.ft_base.specs.Schedule.{IsActor, actors_in, actors_of, turn_for};
ghost use Rattle.ft_base.specs.declared.turn.Actor.{Actor};
ghost use Rattle.ft_hist.specs.Past.{begun, done};
ghost use Rattle.word_map.specs.Ops.{WordOp};
ghost use Rattle.ft_machine.specs.Nexts.{next_op};
ghost use Rattle.ft_machine.specs.Sites.{IsWhole as IsWholeSite};
ghost use Rattle.site_bytes.specs.Bytes.{bytes_of};
ghost use Rattle.site_bytes.specs.declared.insn.Insn.TheVariants.{Nop};
ghost use Rattle.word_machine.specs.Machine.{World, all_end, is_at_end, past_after, play, run, start, step, words_after};
ghost use Rattle.ft_machine.specs.Fed.{control_fed, control_takes, cpu_fed, cpu_takes};
ghost use Rattle.ft_machine.specs.Replays.{StopsAt};

/// Each list of actors is that of some schedule: so "every schedule" speaks of every interleaving.
pub fn every_interleaving_is_a_schedule()
    ensures { (cpus : ℕ) (actors : List Actor) → actors_in cpus (map turn_for actors) ≡ actors }
{}

/// The replay of a job's schedule is a run of a beginning of the schedule's actors, and stops only
/// if all actors are at their ends or the schedule is used up.
pub fn every_replay_is_a_run()
    ensures { (job : PlainJob) → StopsAt job (actors_of job) (start job) (play job) }
{}

/// All actors are at their ends exactly if each of the job's actors is.
pub fn all_end_if_each_does()
    ensures { (job : PlainJob) (s : World)
        → (all_end job s ≡ true) ↔ ((a : Actor) → IsActor job a → is_at_end job a s ≡ true) }
{}

/// A step of an actor makes its next operation: on the words, and on the history, to which a mark adds
/// its item. With none it changes nothing.
pub fn a_step_makes_the_next_operation()
    ensures none { (job : PlainJob) (a : Actor) (s : World) → next_op job a s ≡ None → step job a s ≡ s }
    ensures words { (job : PlainJob) (a : Actor) (s : World) (op : WordOp) → next_op job a s ≡ Some op
        → (step job a s).words ≡ words_after op s.words }
    ensures past { (job : PlainJob) (a : Actor) (s : World) (op : WordOp) → next_op job a s ≡ Some op
        → (step job a s).past ≡ past_after op s.past }
{}

/// After every list of actors each actor's state is that of the values that its own steps took: it
/// knows of the others by these alone.
pub fn each_actor_is_fed_its_values()
    ensures control { (job : PlainJob) (actors : List Actor)
        → (run job actors (start job)).control ≡ control_fed job (control_takes job actors (start job)) }
    ensures cpus { (job : PlainJob) (actors : List Actor) (c : ℕ) → c < length job.quanta
        → (run job actors (start job)).cpus c ≡ cpu_fed job c (cpu_takes job c actors (start job)) }
{}

/// Between two commands a whole site at which no user is sited has the nop's bytes. So whatever
/// `Machine::site` gives for a function of a module that isn't loaded is a nop between two lines.
pub fn sites_of_nobody_are_nops()
    ensures { (job : PlainJob) (past : List Item) (f : ℕ) (bytes : List ℕ) → IsWholeSite job past f bytes
        → begun past ≡ done past → sited (desk job (done past)) f ≡ [] → bytes ≡ bytes_of f Nop }
{}
