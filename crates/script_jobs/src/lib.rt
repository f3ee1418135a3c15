//! What laws ask of a job, the job of each accepted script has: so those of the word machine and of
//! the log speak of every script that is accepted.
//!
//! `ft_script` says which texts are scripts and what their jobs are (`IsJobOf`). `word_machine` says
//! of which jobs its laws speak (`IsLimited`), `trace_lines` of which jobs and items the log tells
//! everything (`IsNamedApart`, `IsItemOf`), `log_reader` which items it can read (`IsShort`), and
//! `module_coverage` in which histories no call reaches a module
//! that isn't loaded (`KeepsLoaded`). The reader of scripts shows that what a text declares keeps
//! to the limits, line by line, since the machine asks for it; here that is said of whole texts, and
//! that names and pids differ besides, which the machine has no need of. So it holds of each script by
//! what it says alone, also where there is no memory to read it. There is no code, and of its
//! own one definition: in which jobs the commands of a script's lanes may be led (`IsMergeOf`).
#![tactic(auto)]

ghost use Rattle.std.specs.Prelude.{ℕ, ◌≡◌, ◌≢◌, ◌<◌, ◌^◌, Bool, true, false, List, [], reverse, length};
ghost use Rattle.std.specs.List.{AllByRecursion as Each};
ghost use Rattle.ft_base.specs.declared.item.Item.{Item};
ghost use Rattle.ft_base.specs.declared.turn.Actor.{Actor};
ghost use Rattle.ft_base.specs.Job.{Job};
ghost use Rattle.ft_hist.specs.Past.{begun, done};
ghost use Rattle.ft_hist.specs.Rules.{IsLegal, IsWhole};
ghost use Rattle.ft_job.specs.Plans.{HasLanes};
ghost use Rattle.ft_script.specs.Hidden.{known_after, is_there};
ghost use Rattle.ft_script.specs.Script.{declared_in, IsJobOf};
ghost use Rattle.ft_machine.specs.Sites.{IsWhole as IsWholeSite};
ghost use Rattle.module_coverage.specs.Found.{KeepsLoaded, RunsLoaded};
ghost use Rattle.site_bytes.specs.Bytes.{bytes_of};
ghost use Rattle.site_bytes.specs.declared.insn.Insn.TheVariants.{Nop};
ghost use Rattle.word_machine_laws.specs.Led.{in_order};
ghost use Rattle.word_machine_laws.specs.Orders.{IsLaneOrder};
ghost use Rattle.log_reader.specs.Refused.{IsShort};
ghost use Rattle.trace_lines.specs.LogItems.{IsItemOf, IsNamedApart};
ghost use Rattle.trace_views.specs.LogText.{log_text};
ghost use Rattle.word_machine.specs.Limits.{IsLimited};
ghost use Rattle.word_machine.specs.Machine.{start, run, all_end};

/// The job of an accepted script is within the limits that the word machine's laws ask of a job: what
/// its lines name is there, each task is on one of its CPUs, each wait is for one of its tasks, each
/// interrupt comes above its task's present context and goes after it came, and it has no more of
/// anything than a script may have.
pub fn accepted_jobs_are_limited()
    ensures { (text : List ℕ) (job : Job) → IsJobOf text job → IsLimited job }
{}

/// So after every list of actors the word machine's history of a script is legal, and whole if all
/// actors are at their ends.
pub fn every_history_of_a_script_is_legal()
    ensures legal { (text : List ℕ) (job : Job) (actors : List Actor) → IsJobOf text job
        → IsLegal job (reverse (run job actors (start job)).past) }
    ensures whole { (text : List ℕ) (job : Job) (actors : List Actor) → IsJobOf text job
        → all_end job (run job actors (start job)) ≡ true
        → IsWhole job (reverse (run job actors (start job)).past) }
{}

/// The functions of an accepted script have names that differ, its users too, and the pids of its
/// tasks differ; so they do in whatever order the commands of its lanes go.
pub fn accepted_jobs_are_named_apart()
    ensures named { (text : List ℕ) (job : Job) → IsJobOf text job → IsNamedApart job }
    ensures ordered { (text : List ℕ) (job : Job) (order : List ℕ) → IsJobOf text job → HasLanes job → IsNamedApart (in_order job order) }
{}

/// In an accepted script in lanes control has commands alone, and each has the number of a lane.
pub fn each_command_in_lanes_has_one()
    ensures { (text : List ℕ) (job : Job) → IsJobOf text job → job.lines.lanes ≢ [] → HasLanes job }
{}

/// Each item of a legal history of an accepted script has numbers that the job has: tasks, functions
/// and users. There are fewer than 2^32 of them. So it is in whatever order of the lanes its commands go.
pub fn legal_items_are_the_jobs()
    ensures items { (text : List ℕ) (job : Job) (items : List Item) → IsJobOf text job
        → IsLegal job items → Each (IsItemOf job) items }
    ensures count { (text : List ℕ) (job : Job) (items : List Item) → IsJobOf text job
        → IsLegal job items → length items < 2 ^ 32 }
    ensures ordered { (text : List ℕ) (job : Job) (order : List ℕ) (items : List Item) → IsJobOf text job
        → HasLanes job → IsLaneOrder job.lines.lanes order → IsLegal (in_order job order) items
        → Each (IsItemOf (in_order job order)) items × (length items < 2 ^ 32) }
{}

/// And the numbers of commands, calls and places in it have 32 bits, as those of an item in memory;
/// so have those of a script in lanes, in whatever order of the lanes its commands go.
pub fn legal_items_are_short()
    ensures items { (text : List ℕ) (job : Job) (items : List Item) → IsJobOf text job
        → IsLegal job items → Each IsShort items }
    ensures ordered { (text : List ℕ) (job : Job) (order : List ℕ) (items : List Item) → IsJobOf text job
        → HasLanes job → IsLaneOrder job.lines.lanes order → IsLegal (in_order job order) items → Each IsShort items }
{}

/// So the log of a script tells its history: two legal histories of its job with the same log, and
/// whether they have ended, are the same.
pub fn the_log_of_a_script_tells_its_history()
    ensures { (text : List ℕ) (job : Job) (a b : List Item) (x y : Bool) → IsJobOf text job
        → IsLegal job a → IsLegal job b → log_text job a x ≡ log_text job b y → (a ≡ b) × (x ≡ y) }
{}

/// No call of an accepted script reaches code that isn't there: in each legal history of its job each item
/// of a call finds the module of the call's function loaded, after the commands that have returned there
/// and after those that have begun; and so does each body, which may be that of a replacement.
pub fn calls_of_scripts_find_their_modules()
    ensures calls { (text : List ℕ) (job : Job) (items : List Item) → IsJobOf text job → IsLegal job items → KeepsLoaded job items }
    ensures bodies { (text : List ℕ) (job : Job) (items : List Item) → IsJobOf text job → IsLegal job items → RunsLoaded job items }
{}

/// Between whole lines of control nobody traces a function of a module that isn't loaded: if no command
/// is under way, and those of the first n lines have returned, a whole site of it has the nop's bytes,
/// which are what `Machine::site` gives.
pub fn unloaded_modules_have_no_patched_sites()
    ensures { (text : List ℕ) (job : Job) (n f : ℕ) (past : List Item) (bytes : List ℕ) → IsJobOf text job
        → (declared_in text).lane_count ≡ 0 → f < length job.functions
        → IsWholeSite job past f bytes → begun past ≡ done past → done past ≡ (known_after (declared_in text) n).commands
        → is_there job (done past) f ≡ false → bytes ≡ bytes_of f Nop }
{}

/// No line of a script in lanes names a module.
pub fn scripts_in_lanes_name_no_modules()
    ensures { (text : List ℕ) (job : Job) → IsJobOf text job → job.lines.lanes ≢ []
        → (job.lines.absent ≡ []) × (job.lines.modules ≡ []) }
{}

/// A script in lanes has a job for each order in which its commands may go. Its log tells the order, too:
/// two whole histories of its job, in whatever orders of the lanes, with the same log are the same, have
/// ended or not alike, and their commands went in the same order.
pub fn the_log_of_lanes_tells_their_order()
    ensures { (text : List ℕ) (job : Job) (order other : List ℕ) (a b : List Item) (x y : Bool) → IsJobOf text job → HasLanes job
        → IsLaneOrder job.lines.lanes order → IsLaneOrder job.lines.lanes other
        → IsWhole (in_order job order) a → IsWhole (in_order job other) b
        → log_text (in_order job order) a x ≡ log_text (in_order job other) b y
        → (order ≡ other) × (a ≡ b) × (x ≡ y) }
{}
