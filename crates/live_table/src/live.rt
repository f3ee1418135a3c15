//! The words that threads share, and the steps of their seats.

ghost use Rattle.std.specs.Prelude.{◌≡◌, ◌+◌, ◌<◌, ◌≤◌, true, false, [], ◌∷◌, length, slice_get, vec_capacity, Some, None, IfErr, IfOk};
ghost use Rattle.ft_base.specs.declared.turn.Actor.TheVariants as Actor;
ghost use Rattle.ft_base.specs.Job.{Command, Run};
ghost use Rattle.ft_hist.specs.Placing.{ArePlaced, items_of};
ghost use Rattle.ft_hist.specs.Rules.{IsLegal, IsWhole};
ghost use Rattle.word_machine_laws.specs.Orders.{IsLed};
ghost use Rattle.word_machine.specs.Control.{control_next};
ghost use Rattle.control_core.specs.Seated.{IsOpening};
ghost use Rattle.ft_machine.specs.declared.cpus.CpuRoom.TheVariants.{ForAll};
ghost use Rattle.ft_machine.specs.Starts.{AreFirst, IsFirst};
ghost use Rattle.live_table.specs.Seats.{AreAtEnd, AreNew, AreSeats, ControlSitsAt, IsDealt, IsMadeByTurns, IsNewCpu, IsOpen, SitsAt, control_at, history_of, lists_at, parts_of, withheld_if};
ghost use Rattle.live_table.specs.Steps.{ControlLeads, ControlSteps, CpuSteps};
ghost use Rattle.dealt_seats.specs.Views.{part, view};

use crate::rooms::rooms_for;
use crate::rule::{Deals, Gathers, Key, Rules};
use crate::seats::{ControlSeat, CpuSeat};
use crate::table::{make, make_begin, open, settle};
use crate::view::View;
use atomic_table::{Seat, Table};
use control_core::Control;
use cpu_core::Cpu;
use ft_base::{CpuNo, NoMemory, Stamped};
use ft_hist::{History, merge};
use ft_job::Job;
use ft_machine::{CpuRoom, WorldParts, new_world};
use std::alloc::Global;
use std::marker::Model;
use std::snapshot::Snapshot;

/// The words that threads share. Contracts see which table it is, and the job.
#[derive(Drop)]
pub struct Live {
    table: Table<(), View, Key, Rules, Global>,
}

impl Model for Live {
    ghost use Rattle.live_table.specs.Seats.{Board, IsTable};

    ghost Value = { Board };

    ghost view = { λ l. record { table_id = l.table.shared.table_id; job = l.table.shared.key.job.value } };

    ghost invariant = { λ l. IsTable (record { table_id = l.table.shared.table_id; job = l.table.shared.key.job.value }) };
}

/// A job before its first step, with a seat for each actor.
#[derive(Drop)]
pub struct Started {
    /// The words.
    pub live: Live,
    /// Control's seat.
    pub control: ControlSeat,
    /// The CPUs' seats by number.
    pub cpus: Vec<CpuSeat>,
}

/// Memory ran out. All comes back as it was.
#[derive(Drop)]
pub struct GatherFault {
    /// The words.
    pub live: Live,
    /// Control's seat.
    pub control: ControlSeat,
    /// The CPUs' seats by number.
    pub cpus: Vec<CpuSeat>,
}

/// Whether a step was made.
#[derive(Clone, Copy, Debug, PartialEq, Eq)]
pub enum Going {
    /// It was.
    More,
    /// The actor has no step left.
    End,
}

impl Live {
    /// The job before its first step, with a seat for each actor, which has room for all items that it can
    /// mark. All its lines are led, in their order. The error says that memory ran out.
    pub fn start(alloc: Global, job: &Job) -> Result<Started, NoMemory>
        ensures job { IfOk result (λ s. s.live.job ≡ job.now) }
        ensures control { IfOk result (λ s. IsOpen s.live s.control false (length job.now.quanta)) }
        ensures cpus { IfOk result (λ s. AreNew s.live s.cpus.items) }
    {
        Live::start_with(alloc, job, false)
    }

    /// The same with control's lines withheld: control is at its end until a line is led.
    pub fn start_open(alloc: Global, job: &Job) -> Result<Started, NoMemory>
        ensures job { IfOk result (λ s. s.live.job ≡ job.now) }
        ensures control { IfOk result (λ s. IsOpen s.live s.control true (length job.now.quanta)) }
        ensures ended { IfOk result (λ s. control_next s.control.led (control_at s.control) ≡ None) }
        ensures cpus { IfOk result (λ s. AreNew s.live s.cpus.items) }
    {
        Live::start_with(alloc, job, true)
    }

    /// Either of the two.
    fn start_with(alloc: Global, job: &Job, withheld: bool) -> Result<Started, NoMemory>
        ensures job { IfOk result (λ s. s.live.job ≡ job.now) }
        ensures control { IfOk result (λ s. IsOpen s.live s.control withheld (length job.now.quanta)) }
        ensures cpus { IfOk result (λ s. AreNew s.live s.cpus.items) }
    {
        let (live, mut control, cpus) = Live::open(alloc, job, withheld)?;
        let cpus = live.deal_all(alloc, job, &mut control, cpus)?;
        Ok(Started {
            live,
            control,
            cpus,
        })
    }

    /// The words, control's seat and the CPUs, which have none yet. The error says that memory ran out.
    fn open(
        alloc: Global,
        job: &Job,
        withheld: bool,
    ) -> Result<(Live, ControlSeat, Vec<Cpu>), NoMemory>
        ensures job { IfOk result (λ r. r.0.job ≡ job.now) }
        ensures control { IfOk result (λ r. IsOpen r.0 r.1 withheld 0) }
        ensures cpus { IfOk result (λ r. AreFirst ForAll job.now r.2.items) }
    {
        // A machine that steps as one and actors that step at the same time begin alike.
        let world = new_world(alloc, job, CpuRoom::ForAll)?;
        let WorldParts {
            words,
            mut control,
            cpus,
        } = world.into_parts();
        withhold_if(&mut control, withheld);
        // For its contract alone: no line has more than one lane.
        let _lanes = job.lanes();
        let key = Key {
            job: Snapshot::of(job),
            withheld,
        };
        let (table, seat) = open(alloc, words.as_slice(), &key)?;
        let live = Live { table };
        Ok((live, ControlSeat { seat, control }, cpus))
    }

    /// A seat for each CPU. The error says that memory ran out.
    fn deal_all(
        &self,
        alloc: Global,
        job: &Job,
        control: &mut ControlSeat,
        cpus: Vec<Cpu>,
    ) -> Result<Vec<CpuSeat>, NoMemory>
        requires job { self.now.job ≡ job.now }
        requires control { ControlSitsAt self.now control.old }
        requires split { control.old.split ≡ 0 }
        requires cpus { AreFirst ForAll job.now cpus.items }
        ensures control { IfOk result (λ _. control.new ≡ record control.old { split = length job.now.quanta }) }
        ensures cpus { IfOk result (λ seats. AreNew self.now seats.items) }
    {
        let count = job.cpus().len();
        let mut seats = Vec::with_capacity(alloc, count).map_err(|_| NoMemory)?;
        for cpu in cpus {
            let number = CpuNo(seats.len() as u32);
            seats.push_reserved(self.deal(control, cpu, number));
        }
        Ok(seats)
    }

    /// The seat of the next CPU, split off from control's.
    fn deal(&self, control: &mut ControlSeat, cpu: Cpu, number: CpuNo) -> CpuSeat
        requires own { ControlSitsAt self.now control.old }
        requires next { (control.old.split ≡ number.0) × (number.0 < length self.now.job.quanta) }
        requires first { IsFirst ForAll self.now.job number.0 cpu }
        ensures control { IsDealt control.old control.new }
        ensures seat { IsNewCpu self.now result number.0 }
    {
        let seat = self.table.shared.split_seat::<Deals>(&mut control.seat);
        CpuSeat {
            seat,
            cpu,
            number,
            fresh: false,
        }
    }

    /// One step of the seat's CPU: its next operation, on what the word holds at that moment. It takes no
    /// memory and does not wait.
    pub fn cpu_step(&self, seat: &mut CpuSeat) -> Going
        requires { SitsAt self.now seat.old }
        ensures { CpuSteps seat.old result seat.new }
    {
        let Some(op) = seat.cpu.next() else {
            return Going::End;
        };
        let value = make(&self.table.shared, &mut seat.seat, op);
        let before = seat.cpu.items().len();
        seat.cpu.got(value);
        seat.fresh = seat.cpu.items().len() > before;
        Going::More
    }

    /// One step of control: its next operation, on what the word holds at that moment. It takes no memory
    /// and does not wait.
    pub fn control_step(&self, seat: &mut ControlSeat) -> Going
        requires { ControlSitsAt self.now seat.old }
        ensures { ControlSteps seat.old result seat.new }
    {
        let Some(op) = seat.control.next() else {
            return Going::End;
        };
        let value = make(&self.table.shared, &mut seat.seat, op);
        seat.control.got(value);
        Going::More
    }

    /// Leads the command at this line of the job: it becomes the next one, and its Begin is marked, in
    /// one atomic step. Control's further steps carry it out. It takes no memory and does not wait.
    ///
    /// Control has to be at its end. Were a command led while another is under way, its Begin would come
    /// before that one's Return: a call at that moment would count as made under a registration of which
    /// control has stored nothing yet, and the user would miss it. And a line that was led is not led
    /// again: the lane that it belongs to would see its command carried out twice.
    pub fn lead(&self, seat: &mut ControlSeat, command: u32)
        requires control { ControlSitsAt self.now seat.old }
        requires ended { control_next seat.old.led (control_at seat.old) ≡ None }
        requires command { (c : Command) × (slice_get seat.old.job.ctls command ≡ Some (Run c)) }
        requires fresh { IsLed seat.old.order command → ⊥ }
        ensures { ControlLeads seat.old command seat.new }
    {
        let clock = make_begin(&self.table.shared, &mut seat.seat, command);
        seat.control.lead(command);
        seat.control.got(clock);
    }

    /// What the seats' actors have marked, each item at its place, and one at each place: a history that
    /// the word machine makes as well, by the steps of some actors in turn, of the job with the lines
    /// that were led. The table and the seats are used up. All memory is taken before any seat is joined,
    /// for as many items as there are, and the fault says that it ran out.
    pub fn gather(
        self,
        alloc: Global,
        control: ControlSeat,
        cpus: Vec<CpuSeat>,
    ) -> Result<History, GatherFault>
        requires control { ControlSitsAt self control }
        requires cpus { AreSeats self cpus.items }
        ensures items { IfOk result (λ h. h.items ≡ history_of control cpus.items) }
        ensures placed { IfOk result (λ h. ArePlaced (length h.items) (lists_at control cpus.items)) }
        ensures turns { IfOk result (λ h. IsMadeByTurns control.led h.items) }
        ensures legal { IfOk result (λ h. IsLegal control.led h.items) }
        ensures whole { IfOk result (λ h. AreAtEnd control cpus.items → IsWhole control.led h.items) }
        ensures fault { IfErr result (λ e. (e.live ≡ self) × (e.control ≡ control) × (e.cpus.items ≡ cpus.items)) }
    {
        // For its contract alone: each line was led once, so there are no more items than the job can make.
        let _order = control.order();
        let Ok((room, lists)) = rooms_for(alloc, &control, cpus.as_slice()) else {
            return Err(GatherFault {
                live: self,
                control,
                cpus,
            });
        };
        let (seat, lists) = self.join_all(control, cpus, lists);
        let Live { table } = self;
        settle(table, seat);
        Ok(merge(room, lists))
    }

    /// Joins the CPUs' seats to control's, and takes from all what they have marked. There is room for
    /// these lists.
    fn join_all(
        &self,
        control: ControlSeat,
        cpus: Vec<CpuSeat>,
        mut lists: Vec<Vec<Stamped>>,
    ) -> (Seat<(), View>, Vec<Vec<Stamped>>)
        requires control { ControlSitsAt self.now control }
        requires cpus { AreSeats self.now cpus.items }
        requires empty { lists.items ≡ [] }
        requires room { 1 + length cpus.items ≤ vec_capacity lists }
        ensures table { result.0.table_id ≡ self.now.table_id }
        ensures parts { result.0.me.0 ≡ view control.job control.led control.split (part Actor.Control control.values ∷ parts_of cpus.items) }
        ensures lists { items_of result.1.items ≡ lists_at control cpus.items }
    {
        let ControlSeat {
            mut seat,
            control: own,
        } = control;
        lists.push_reserved(own.into_items());
        for joining in cpus {
            let CpuSeat {
                seat: other,
                cpu,
                number: _,
                fresh: _,
            } = joining;
            self.table.shared.join_seat::<Gathers>(&mut seat, other);
            lists.push_reserved(cpu.into_items());
        }
        (seat, lists)
    }
}

/// Withholds control's lines, if they are to be led one by one.
fn withhold_if(control: &mut Control, withheld: bool)
    requires { IsOpening control.old }
    ensures { control.new ≡ withheld_if withheld control.old }
{
    if withheld {
        control.withhold();
    }
}
