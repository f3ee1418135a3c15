//! Control: the lines of a script, one after the other.

ghost use Rattle.std.specs.Prelude.{◌≡◌, ◌+◌, ◌*◌, ◌<◌, ◌≤◌, ◌^◌, suc, [], ◌∷◌, ◌++◌, length, option_map, slice_get, vec_capacity, vec_len, All, IfOk};
ghost use Rattle.ft_base.specs.declared.limits.TheConstants.{COMMANDS, UNTILS};
ghost use Rattle.word_map.specs.Places.{words_for};
ghost use Rattle.word_map.specs.Ops.{placed};
ghost use Rattle.grace_core.specs.Waits.{wait_got};
ghost use Rattle.ft_desk.specs.DeskView.{opened};
ghost use Rattle.word_machine_laws.specs.Orders.{AreLed, IsLed, picked};
ghost use Rattle.ft_desk.specs.Declarations.{IsOf};
ghost use Rattle.ft_desk.specs.Lines.{IsLineIn, lines_of};
ghost use Rattle.word_map.specs.Shapes.{shape_of};
ghost use Rattle.control_core.specs.Plans.{IsDeclaredIn};
ghost use Rattle.control_core.specs.Phases.{is_asking as asks, is_over as over, is_linked_up, quiet_to, release_in, store_to};

use crate::ops::{depth_op, line_op, patch_op, pids_op, release_op, select_op, take_op, write_op};
use crate::order::{numbers, present};
use crate::phase::{
    Phase, batch_phase, begin_phase, list_phase, quiet_phase, release_phase, store_phase,
};
use ft_base::{Answer, Item, NoMemory, Stamped};
use ft_desk::{Ctl, Desk};
use grace_core::Waiter;
use hash_pages::PageWriter;
use ops_list::Linker;
use patch_core::Batch;
use std::alloc::Global;
use std::marker::Model;
use std::snapshot::Snapshot;
use word_map::{Op, WordMap, clock, quiet};

/// Control, with the items that it has marked.
#[derive(Drop)]
pub struct Control {
    map: WordMap,
    desk: Desk,
    /// The desk after the commands that have returned, for contracts alone.
    before: Snapshot<Desk>,
    /// All lines of the script, as they stand there.
    lines: Vec<Ctl>,
    /// The numbers of those that are led, in the order in which they are carried out. There is room
    /// for all, so that leading takes no memory.
    order: Vec<u32>,
    /// Which of those that are led is the present one.
    line: u32,
    /// How many commands have returned.
    commands_done: u32,
    /// How many requests were stored.
    request: u32,
    /// The answer to the command under way.
    answer: Answer,
    /// The batch of the command under way.
    batch: Batch,
    phase: Phase,
    items: Vec<Stamped>,
}

impl Model for Control {
    ghost use Rattle.control_core.specs.Seated.{Seated};

    ghost Value = { Seated };

    ghost use Rattle.control_core.specs.ControlInvariant.{seated_of, ControlInvariant};

    ghost view = { seated_of };

    ghost invariant = { ControlInvariant };
}

impl Control {
    ghost use Rattle.word_machine.specs.Control.{control_got, control_next, control_start};
    ghost use Rattle.ft_base.specs.Job.{Job, LinePlan};
    ghost use Rattle.word_machine_laws.specs.Led.{later, more_to_come, with_lines};
    ghost use Rattle.control_core.specs.Seated.{IsFor, IsOpening, LeadsAll, control_of};
    ghost use Rattle.control_core.specs.ControlInvariant.{IsSafe, busy, asked, moves};
    ghost use Rattle.control_core.specs.Steps.{at_phase, closed, line_after, linked, linked_after, listed, marks_in, moved, op_of, page_after, stepped, wrote};

    /// Control before the first of these lines, all of which are led as they stand, with room for all
    /// that it marks. The error says that memory ran out.
    pub fn new(alloc: Global, desk: Desk, ctls: &[Ctl], map: WordMap) -> Result<Control, NoMemory>
        requires desk { desk ≡ opened desk.declared }
        requires declared { IsDeclaredIn map desk.declared }
        requires lines { All (IsLineIn desk.declared) ctls.now }
        requires few { length ctls.now ≤ COMMANDS + UNTILS }
        ensures shape { IfOk result (λ c. c.shape ≡ map) }
        ensures desk { IfOk result (λ c. c.desk ≡ desk) }
        ensures lines { IfOk result (λ c. c.lines ≡ lines_of map.tasks ctls.now) }
        ensures all { IfOk result (λ c. LeadsAll c) }
        ensures opening { IfOk result (λ c. IsOpening c) }
        ensures starts { IfOk result (λ c. (job : Job) → map ≡ shape_of job → lines_of map.tasks ctls.now ≡ job.ctls → IsOf job desk.declared
            → IsFor job c × (control_of c ≡ control_start job)) }
    {
        let items = room_for(alloc, ctls.len())?;
        let lines = copies(alloc, ctls)?;
        let order = numbers(alloc, ctls.len() as u32)?;
        let _shape = map.shape();
        Ok(Control {
            map,
            before: Snapshot::of(&desk),
            desk,
            lines,
            order,
            line: 0,
            commands_done: 0,
            request: 0,
            answer: Answer::Accepted,
            batch: Batch::new(map),
            phase: Phase::Line,
            items,
        })
    }

    /// Takes all lines back before the first step: none is led, until [`lead`](Self::lead) leads it.
    pub fn withhold(&mut self)
        requires { IsOpening self.old }
        ensures withheld { self.new ≡ record self.old { lines = []; order = [] } }
        ensures of { (job : Job) (plan : LinePlan) → IsFor job self.old → IsFor (with_lines job [] plan) self.new }
        ensures control { (job : Job) (plan : LinePlan) → IsFor job self.old → control_of self.new ≡ control_start (with_lines job [] plan) }
    {
        self.order.clear();
    }

    /// Leads one more line, which wasn't led before: it comes after those that were. Control of a job
    /// is then control of the job with this line as well. It takes no memory.
    pub fn lead(&mut self, line: u32)
        requires there { line < length self.old.all }
        requires fresh { IsLed self.old.order line → ⊥ }
        ensures led { self.new ≡ record self.old { lines = self.old.lines ++ picked self.old.all (line ∷ []); order = self.old.order ++ line ∷ [] } }
        ensures of { (job : Job) (plan : LinePlan) → IsFor job self.old → IsFor (later job (picked self.old.all (line ∷ [])) plan) self.new }
        ensures control { control_of self.new ≡ more_to_come (picked self.old.all (line ∷ [])) (control_of self.old) }
    {
        self.order.push_reserved(line);
    }

    /// The numbers of the lines that were led so far, in the order in which they are carried out.
    pub fn order(&self) -> &[u32]
        ensures order { result.now ≡ self.now.order }
        ensures led { AreLed (length self.now.all) result.now }
        ensures lines { self.now.lines ≡ picked self.now.all result.now }
    {
        self.order.as_slice()
    }

    /// Its next operation; none after the last line that is led.
    pub fn next(&self) -> Option<Op>
        ensures { (job : Job) → IsFor job self.now → result ≡ option_map (placed self.now.shape) (control_next job (control_of self.now)) }
    {
        self.keeps();
        self.op()
    }

    /// Takes the value that its next operation gave, and goes on. It takes no memory.
    pub fn got(&mut self, value: u64)
        ensures of { (job : Job) → IsFor job self.old → IsFor job self.new }
        ensures control { (job : Job) → IsFor job self.old → control_of self.new ≡ control_got job (control_of self.old) value }
        ensures all { self.new.all ≡ self.old.all }
        ensures order { self.new.order ≡ self.old.order }
        ensures items { (job : Job) → IsFor job self.old
            → self.new.items ≡ self.old.items ++ marks_in (control_next job (control_of self.old)) value }
    {
        self.keeps();
        self.step(value);
    }

    /// The same of control that keeps no items: if the operation was a mark, its item is the answer, and
    /// isn't kept. A machine that keeps all items in one history need not keep each of them twice.
    pub fn take(&mut self, value: u64) -> Option<Item>
        requires { self.old.items ≡ [] }
        ensures of { (job : Job) → IsFor job self.old → IsFor job self.new }
        ensures control { (job : Job) → IsFor job self.old → control_of self.new ≡ control_got job (control_of self.old) value }
        ensures item { (job : Job) → IsFor job self.old
            → result ≡ option_map (λ s. s.item) (slice_get (marks_in (control_next job (control_of self.old)) value) 0) }
        ensures none { self.new.items ≡ [] }
    {
        self.got(value);
        self.hand_on()
    }

    /// Empties its list, and gives the first item of it.
    fn hand_on(&mut self) -> Option<Item>
        ensures item { result ≡ option_map (λ s. s.item) (slice_get self.old.items 0) }
        ensures emptied { self.new ≡ record self.old { items = [] } }
    {
        let item = match self.items.first() {
            Some(stamped) => Some(stamped.item),
            None => None,
        };
        self.items.clear();
        item
    }

    /// Changes nothing: what each control keeps.
    fn keeps(&self)
        ensures { IsSafe self.now }
    {
        let _phase = &self.phase;
    }

    /// The next operation, by the phase.
    fn op(&self) -> Option<Op>
        ensures { result ≡ option_map (placed self.now.shape) (op_of self.now) }
    {
        match &self.phase {
            Phase::Line => line_op(
                &self.map,
                self.lines.as_slice(),
                self.order.as_slice(),
                self.line,
            ),
            Phase::Taking => take_op(&self.map, self.desk.last()),
            Phase::Writing(writer) => write_op(&self.desk, writer),
            Phase::Selecting => select_op(&self.map, self.desk.last()),
            Phase::Linking(linker) => linker.next(),
            Phase::StoringPids => pids_op(&self.map, self.desk.last()),
            Phase::StoringDepth => depth_op(&self.map, self.desk.last()),
            Phase::Patching => patch_op(self.desk.last(), &self.batch),
            Phase::Syncing(waiter) | Phase::Quieting(waiter) => waiter.next(),
            Phase::Releasing => release_op(&self.map, self.desk.last()),
            Phase::Closing => Some(Op::Mark { command: true }),
        }
    }

    /// Goes on, by the phase.
    fn step(&mut self, value: u64)
        ensures { self.new ≡ stepped self.old value }
    {
        match &mut self.phase {
            Phase::Line => self.got_line(value),
            Phase::Taking => self.took(),
            Phase::Writing(writer) => {
                let writer = *writer;
                self.wrote(writer);
            }
            Phase::Selecting => self.list(),
            Phase::Linking(linker) => {
                let linker = *linker;
                self.linked(linker, value);
            }
            Phase::StoringPids | Phase::StoringDepth => self.quiet(),
            Phase::Patching => self.patched(),
            Phase::Syncing(waiter) => {
                if go_on(waiter, &mut self.request, value) {
                    self.synced();
                }
            }
            Phase::Quieting(waiter) => {
                if go_on(waiter, &mut self.request, value) {
                    self.release();
                }
            }
            Phase::Releasing => self.phase = Phase::Closing,
            Phase::Closing => self.close(value),
        }
    }

    /// What it has marked, in the order of the places.
    pub fn items(&self) -> &[Stamped]
        ensures { result.now ≡ self.now.items }
    {
        self.items.as_slice()
    }

    /// What it has marked, in the order of the places; control is used up.
    pub fn into_items(self) -> Vec<Stamped>
        ensures { result.items ≡ self.items }
    {
        let Control { items, .. } = self;
        items
    }

    /// The desk, after the command under way if there is one.
    pub fn desk(&self) -> &Desk
        ensures { result.now ≡ self.now.desk }
    {
        &self.desk
    }

    /// At a line: a wait is over once the task has finished as many acts, and a command begins.
    fn got_line(&mut self, value: u64)
        requires { self.old.phase ≡ Phase.Line }
        ensures { self.new ≡ line_after self.old (slice_get self.old.lines self.old.line) value }
    {
        match present(self.lines.as_slice(), self.order.as_slice(), self.line) {
            None => {}
            Some(Ctl::Until { acts: awaited, .. }) => {
                if *awaited <= quiet::acts(value) {
                    self.line += 1;
                }
            }
            Some(Ctl::Run(command)) => {
                self.answer = self.desk.plan(command);
                self.phase = begin_phase(&self.map, self.desk.last());
                self.items.push_reserved(Stamped {
                    place: clock::items_at(value),
                    item: Item::Begin {
                        k: self.commands_done + 1,
                    },
                });
            }
        }
    }

    /// The trampoline is taken.
    fn took(&mut self)
        requires { self.old.phase ≡ Phase.Taking }
        ensures { self.new ≡ at_phase self.old (store_to self.old.shape self.old.desk.plan) }
    {
        self.phase = store_phase(&self.map, self.desk.last());
    }

    /// A word of the user's sets, or the state after them, is stored.
    fn wrote(&mut self, mut writer: PageWriter)
        requires phase { self.old.phase ≡ Phase.Writing writer }
        requires left { writer.stored ≤ 2 * words_for writer.shape.funcs }
        ensures { self.new ≡ wrote self.old (page_after writer) }
    {
        writer.did();
        if write_op(&self.desk, &writer).is_some() {
            self.phase = Phase::Writing(writer);
        } else {
            self.list();
        }
    }

    /// The user's state is stored.
    fn list(&mut self)
        requires begun { busy self.old.phase ≡ 1 }
        requires none { asked self.old.phase ≡ 0 }
        ensures { self.new ≡ listed self.old }
    {
        self.phase = list_phase(&self.map, self.desk.last(), &self.batch, self.request);
    }

    /// A word of the list is stored.
    fn linked(&mut self, mut linker: Linker, value: u64)
        requires phase { self.old.phase ≡ Phase.Linking linker }
        ensures { self.new ≡ linked self.old (linked_after linker) }
    {
        linker.got(value);
        if linker.next().is_some() {
            self.phase = Phase::Linking(linker);
        } else {
            self.phase = batch_phase(&self.map, self.desk.last(), &self.batch, self.request);
        }
    }

    /// All is stored that the command stores before its wait.
    fn quiet(&mut self)
        requires begun { busy self.old.phase ≡ 1 }
        requires none { asked self.old.phase ≡ 0 }
        ensures { self.new ≡ at_phase self.old (quiet_to self.old.shape self.old.desk.plan self.old.request) }
    {
        self.phase = quiet_phase(&self.map, self.desk.last(), self.request);
    }

    /// A store of the batch is made.
    fn patched(&mut self)
        requires { self.old.phase ≡ Phase.Patching }
        ensures { self.new ≡ moved self.old (suc self.old.made) }
    {
        self.batch.did();
        // A batch is many stores, after most of which another one follows: then the phase stays.
        if self.batch.is_at_store(self.desk.last().sites.as_slice()) {
            return;
        }
        self.phase = batch_phase(&self.map, self.desk.last(), &self.batch, self.request);
    }

    /// A sync of the batch is over.
    fn synced(&mut self)
        requires begun { busy self.old.phase ≡ 1 }
        requires left { self.old.made < moves }
        ensures { self.new ≡ moved self.old (suc self.old.made) }
    {
        self.batch.synced();
        self.phase = batch_phase(&self.map, self.desk.last(), &self.batch, self.request);
    }

    /// The wait for quiet points is over.
    fn release(&mut self)
        requires begun { busy self.old.phase ≡ 1 }
        ensures { self.new ≡ at_phase self.old (release_in self.old.desk.plan.tramp) }
    {
        self.phase = release_phase(self.desk.last());
    }

    /// The command has returned.
    fn close(&mut self, value: u64)
        requires { self.old.phase ≡ Phase.Closing }
        ensures { self.new ≡ closed self.old value }
    {
        self.commands_done += 1;
        self.line += 1;
        self.before = Snapshot::of(&self.desk);
        self.batch = Batch::new(self.map);
        self.phase = Phase::Line;
        self.items.push_reserved(Stamped {
            place: clock::items_at(value),
            item: Item::Return {
                k: self.commands_done,
                answer: self.answer,
            },
        });
    }
}

ghost use Rattle.control_core.specs.Steps.{requests_after};

/// A wait takes the value that its operation gave. Whether it is over.
fn go_on(waiter: &mut Waiter, request: &mut u32, value: u64) -> bool
    requires { request.old + 1 < 2 ^ 32 }
    ensures request { request.new ≡ requests_after request.old waiter.old }
    ensures wait { waiter.new ≡ wait_got waiter.old value }
    ensures over { result ≡ over waiter.new.phase }
{
    if is_asking(waiter) {
        *request += 1;
    }
    waiter.got(value);
    waiter.next().is_none()
}

/// Whether a wait's next operation stores its request.
fn is_asking(waiter: &Waiter) -> bool
    ensures { result ≡ asks waiter.now.phase }
{
    matches!(waiter.next(), Some(Op::Store { .. }))
}

/// Room for the items of so many lines, two a command.
fn room_for(alloc: Global, lines: usize) -> Result<Vec<Stamped>, NoMemory>
    requires { lines ≤ COMMANDS + UNTILS }
    ensures empty { IfOk result (λ v. v.items ≡ []) }
    ensures none { IfOk result (λ v. vec_len v ≡ 0) }
    ensures room { IfOk result (λ v. 2 * lines ≤ vec_capacity v) }
{
    Vec::with_capacity(alloc, 2 * lines).map_err(|_| NoMemory)
}

/// Equal lines.
fn copies(alloc: Global, ctls: &[Ctl]) -> Result<Vec<Ctl>, NoMemory>
    ensures { IfOk result (λ lines. lines.items ≡ ctls.now) }
{
    let mut lines = Vec::with_capacity(alloc, ctls.len()).map_err(|_| NoMemory)?;
    for ctl in ctls {
        lines.push_reserved(ctl.copy()?);
    }
    Ok(lines)
}
