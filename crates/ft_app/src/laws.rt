//! What a written log tells, and what the histories of running threads are.

ghost use Rattle.std.specs.Prelude.{◌≡◌, ℕ, Bool, List, length, reverse, Some};
ghost use Rattle.ft_base.specs.declared.item.Item.{Item};
ghost use Rattle.ft_base.specs.declared.turn.Turn.{Turn};
ghost use Rattle.ft_base.specs.Job.{Job};
ghost use Rattle.ft_base.specs.Schedule.{actors_in};
ghost use Rattle.ft_words.specs.declared.order.Order.{Order};
ghost use Rattle.word_machine.specs.Machine.{run, start};
ghost use Rattle.ft_app.specs.Main.{IsLogged, IsPlain, HasRun};
ghost use Rattle.ft_app.specs.Reply.{IsRunOf};

/// A written log tells its history. The order asks for the form log, and the source and the sink tell
/// their bytes. Then the bytes that a call of [`ft_main`](crate::ft_main) with status 0 has read and
/// written, for which `HasRun` holds, are those of one job, of one order in which its commands were
/// led, of one history of it in that order, and of whether that has ended.
pub fn a_written_log_tells_its_history()
    ensures { (order : Order) (given left before after : List ℕ)
        (a b : HasRun order (Some given) (Some left) (Some before) (Some after)) → IsLogged order
        → (a.played.job ≡ b.played.job)
        × (a.played.written.led ≡ b.played.written.led)
        × (a.played.written.items ≡ b.played.written.items)
        × (a.played.written.ended ≡ b.played.written.ended) }
{}

/// What is written without running threads is told by the script: two calls with status 0 that have read
/// the same bytes for one order have written the same.
pub fn a_replay_has_one_text()
    ensures { (order : Order) (given left before after after' : List ℕ) → IsPlain order
        → HasRun order (Some given) (Some left) (Some before) (Some after)
        → HasRun order (Some given) (Some left) (Some before) (Some after') → after ≡ after' }
{}

/// Each history of running threads is the history of a replay: the word machine makes it of the job by
/// the turns of some schedule, each of which is a single step of one actor.
pub fn each_run_is_a_replay()
    ensures { (job : Job) (items : List Item) (ended : Bool) → IsRunOf job items ended
        → (turns : List Turn) × (items ≡ reverse (run job (actors_in (length job.quanta) turns) (start job)).past) }
{}
