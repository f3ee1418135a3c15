//! The dispatch of a call: the fetch, the walk of the list or the trampoline, the tests of each user
//! that is on, and its callback. All of it is of the top call.

ghost use Rattle.std.specs.Prelude.{◌≡◌, ◌+◌, ◌<◌, ◌≤◌, true, length, drop, IfSome};
ghost use Rattle.std.specs.Option.{option_map};
ghost use Rattle.ft_base.specs.declared.item.Item.TheVariants.{Refuse, Miss, Back, BackEnd, Enter};
ghost use Rattle.ft_base.specs.declared.limits.TheConstants.{TASKS, FUNCS};
ghost use Rattle.user_specs.specs.Plain.{spec_of};
ghost use Rattle.ops_list.specs.Walks.{walk_at};
ghost use Rattle.hash_pages.specs.Reads.{read_by, verdict_of};
ghost use Rattle.recursion_guard.specs.Guards.{IsHeld};
ghost use Rattle.word_map.specs.Ops.{placed};
ghost use Rattle.word_map.specs.Contents.{tramp_user};
ghost use Rattle.word_map.specs.Instructions.{number_of};
ghost use Rattle.task_core.specs.TaskNeeds.{CanRaise, FitsLoad, FitsMark, FitsWalk, HasCallRoom, HasFrameRoom, IsInCall, IsLoadThere, IsUser};
ghost use Rattle.task_core.specs.Opens.{latest};
ghost use Rattle.task_core.specs.Setups.{declared_in};
ghost use Rattle.task_core.specs.TaskOps.{item_of, load_op, next_call, top};
ghost use Rattle.task_core.specs.TaskSteps.{acted, after_load, after_mark, at, called_back, callback_ended, depth_tested, fetched, guard_tested, in_trampoline, lacks_frame, missed, own_stated, passed, pid_tested, read, stacks_after, tested, walked, with_latest};

use crate::moment::{Moment, ToLoad, ToMark, act_in, after_head, depth_in, insn_read};
use crate::open_call::OpenCall;
use crate::setup::Setup;
use crate::task::{Task, same_context};
use fprobe::{Probe, probe_entry};
use ft_base::{Ctx, FuncNo, Item, Ran, Reason, UserNo};
use graph_users::may_enter;
use hash_pages::{PageReader, Verdict};
use pid_filter::allowed;
use site_bytes::Insn;
use user_specs::{Spec, has_depth};
use word_map::{Op, Sel, WordMap, next, tramp};

impl Task {
    /// The load that comes next.
    #[inline(always)]
    pub(crate) fn load_op(&self, load: &ToLoad, map: &WordMap) -> Option<Op>
        requires call { IsInCall self.now }
        requires word { IsLoadThere map.now self.now load.now }
        ensures { result ≡ option_map (placed map.now) (load_op self.now load.now) }
    {
        let func = self.opens.top().func;
        let word = match load {
            ToLoad::Fetch => map.head(func),
            ToLoad::GotHead(_) => map.tail(func),
            ToLoad::GotBreak => map.next_word(func),
            ToLoad::InTramp(slot) => map.tramp(*slot),
            ToLoad::OwnSel { user, .. } => map.sel(*user),
            ToLoad::Walking => return self.opens.top().walk.next(),
            ToLoad::Reading(reader) => return reader.next(),
            ToLoad::AtPids { .. } => map.pids(),
            ToLoad::AtDepth { .. } => map.depth(),
            ToLoad::AtExit(i) => map.sel(self.frame_user(*i).user),
        };
        Some(Op::Load { word })
    }

    /// The load gave this value.
    #[inline(always)]
    pub(crate) fn loaded(&mut self, load: ToLoad, setup: &Setup, value: u64)
        requires call { IsInCall self.old }
        requires fits { FitsLoad setup.now self.old load value }
        ensures { self.new ≡ after_load self.old setup.now load value }
    {
        match load {
            ToLoad::Fetch => self.moment = after_head(value),
            ToLoad::GotHead(head) => {
                let func = self.opens.top().func;
                self.fetched(insn_read(func, head, value));
            }
            ToLoad::GotBreak => self.fetched(next::insn_numbered(value)),
            ToLoad::InTramp(_) => self.in_trampoline(setup, value),
            ToLoad::OwnSel { user, reg } => self.own_state(setup, user, reg, value),
            ToLoad::Walking => self.walked(setup, value),
            ToLoad::Reading(reader) => self.read(reader, setup, value),
            ToLoad::AtPids { user, reg } => self.tested_pid(setup, user, reg, value),
            ToLoad::AtDepth { user, reg } => self.tested_depth(setup, user, reg, value),
            ToLoad::AtExit(i) => self.exit_state(i, value),
        }
    }

    /// The mark at this place of the history is made. The answer is its item.
    #[inline(always)]
    pub(crate) fn marked(&mut self, mark: ToMark, setup: &Setup, place: u32) -> Item
        requires call { IsInCall self.old }
        requires fits { FitsMark setup.now self.old mark }
        ensures task { self.new ≡ after_mark self.old setup.now mark place }
        ensures item { result ≡ item_of self.old mark }
    {
        match mark {
            ToMark::Refusing { user, reason, .. } => self.refused(user, reason),
            ToMark::Calling { user, reg } => self.called_back(setup, user, reg, place),
            ToMark::Missing { user } => self.missed(setup, user),
            ToMark::Acting { user, func, ctx } => self.acted(setup, user, func, ctx),
            ToMark::Ending { user } => self.callback_ended(user),
            ToMark::Closing => self.body_begun(),
            ToMark::Leaving => self.leave(),
            ToMark::Exiting(i) => self.exit_begun(i),
            ToMark::EndingExit(i) => self.exit_ended(i),
            ToMark::Returning => self.returned(),
        }
    }

    /// The instruction of the call site is known.
    fn fetched(&mut self, insn: Insn)
        requires { IsInCall self.old }
        ensures { self.new ≡ fetched self.old (number_of insn) }
    {
        let (ran, moment) = match insn {
            Insn::Nop => (Ran::Nop, Moment::Mark(ToMark::Closing)),
            Insn::List => (Ran::List, Moment::Load(ToLoad::Walking)),
            // Whose trampoline it is, its word tells.
            Insn::Own(slot) => (Ran::List, Moment::Load(ToLoad::InTramp(slot))),
        };
        self.set_ran(ran);
        self.moment = moment;
    }

    /// The word of a trampoline is loaded. It names the user for which the site was patched: control
    /// frees a trampoline only after each task was at a quiet point, and this one is in a call. A plain
    /// user is in the trampoline's text: it is called back without being asked, since who is in there
    /// when its unregistration begins is waited for.
    fn in_trampoline(&mut self, setup: &Setup, value: u64)
        requires call { IsInCall self.old }
        requires user { IsUser setup.now (tramp_user value) }
        ensures { self.new ≡ in_trampoline self.old setup.now value }
    {
        let user = tramp::user(value);
        let reg = tramp::reg(value);
        self.set_ran(Ran::Own(user));
        if setup.is_asked(user) {
            self.moment = Moment::Load(ToLoad::OwnSel { user, reg });
        } else {
            self.begin_tests(setup, user, reg);
        }
    }

    /// The state of the trampoline's user is loaded. The user is called back if it is on by the
    /// registration for which it got the trampoline. By any registration, one that was registered
    /// anew meanwhile could be called back at a function that it doesn't select any more.
    fn own_state(&mut self, setup: &Setup, user: UserNo, reg: u32, value: u64)
        requires { IsUser setup.now user.0 }
        ensures { self.new ≡ own_stated self.old (declared_in setup.now user.0) user reg value }
    {
        if Sel::of(value).stands(reg) {
            self.begin_tests(setup, user, reg);
        } else {
            self.moment = Moment::Mark(ToMark::Closing);
        }
    }

    /// The walk has loaded the name of a user, whose state and sets are read next, or it is at the
    /// end of the list.
    fn walked(&mut self, setup: &Setup, value: u64)
        requires call { IsInCall self.old }
        requires fits { FitsWalk setup.now self.old value }
        ensures { self.new ≡ walked self.old setup.now.shape value }
    {
        let mut walk = self.opens.top().walk;
        walk.got(value);
        self.moment = match walk.at() {
            Some(user) => {
                let reader = PageReader::new(user, self.opens.top().func, setup.map);
                Moment::Load(ToLoad::Reading(reader))
            }
            None => Moment::Mark(ToMark::Closing),
        };
        self.opens.set_top(OpenCall {
            walk,
            ..*self.opens.top()
        });
    }

    /// The read of the user where the walk is has loaded a word. Of a plain user the sets alone are looked
    /// at, as the list test of its own has it. If it were asked, a walk that comes to one which is being
    /// taken off would pass it by, and who waits for the callback would miss it.
    fn read(&mut self, mut reader: PageReader, setup: &Setup, value: u64)
        requires call { IsInCall self.old }
        requires user { IfSome (walk_at (top self.old).walk.phase) (λ u. IsUser setup.now u.0) }
        ensures { self.new ≡ read self.old setup.now reader value }
    {
        let at = self.opens.top().walk.at();
        match at {
            Some(user) if !setup.is_asked(user) => reader.got_unasked(value),
            _ => reader.got(value),
        }
        match (reader.verdict(), at) {
            (Verdict::Open, _) => self.moment = Moment::Load(ToLoad::Reading(reader)),
            (Verdict::On { reg }, Some(user)) => self.begin_tests(setup, user, reg),
            _ => self.next_user(),
        }
    }

    /// The user is on at the function. The pid rule comes first: after the guard it would come too
    /// late for a call within a callback, and the history would say that a user is refused for
    /// recursion which doesn't trace the task at all.
    fn begin_tests(&mut self, setup: &Setup, user: UserNo, reg: u32)
        requires { IsUser setup.now user.0 }
        ensures { self.new ≡ tested self.old (declared_in setup.now user.0) user reg }
    {
        if setup.user(user).pid {
            self.moment = Moment::Load(ToLoad::AtPids { user, reg });
        } else {
            self.test_guard(setup, user, reg);
        }
    }

    /// The traced tasks are loaded.
    fn tested_pid(&mut self, setup: &Setup, user: UserNo, reg: u32, value: u64)
        requires user { IsUser setup.now user.0 }
        requires task { self.old.number.0 < TASKS }
        ensures { self.new ≡ pid_tested self.old (declared_in setup.now user.0) user reg value }
    {
        if allowed(value, self.number) {
            self.test_guard(setup, user, reg);
        } else {
            self.refuse(user, reg, Reason::Pid);
        }
    }

    /// A level of the context's guard is taken if one is free, and held until the callback ends. That is
    /// before the depth rule: a call within a callback would otherwise be refused for its depth, where
    /// the rules say for recursion.
    fn test_guard(&mut self, setup: &Setup, user: UserNo, reg: u32)
        requires { IsUser setup.now user.0 }
        ensures { self.new ≡ guard_tested self.old (declared_in setup.now user.0) user reg }
    {
        if !self.guards.try_enter() {
            self.refuse(user, reg, Reason::Recursion);
        } else if has_depth(setup.user(user)) {
            self.moment = Moment::Load(ToLoad::AtDepth { user, reg });
        } else {
            self.moment = Moment::Mark(ToMark::Calling { user, reg });
        }
    }

    /// The graph depth is loaded.
    fn tested_depth(&mut self, setup: &Setup, user: UserNo, reg: u32, value: u64)
        requires call { IsInCall self.old }
        requires held { IsHeld self.old.guards }
        ensures { self.new ≡ depth_tested self.old setup.now.frames user reg value }
    {
        if may_enter(&self.stacks, setup.frames, depth_in(value)) {
            self.moment = Moment::Mark(ToMark::Calling { user, reg });
        } else {
            // There is no callback. With its level held, later users would be refused.
            self.guards.leave();
            self.refuse(user, reg, Reason::Depth);
        }
    }

    fn refuse(&mut self, user: UserNo, reg: u32, reason: Reason)
        ensures { self.new ≡ at self.old (Moment.Mark (ToMark.Refusing user reg reason)) }
    {
        self.moment = Moment::Mark(ToMark::Refusing { user, reg, reason });
    }

    fn refused(&mut self, user: UserNo, reason: Reason) -> Item
        requires { IsInCall self.old }
        ensures task { self.new ≡ passed self.old }
        ensures item { result ≡ Refuse (top self.old).call user reason }
    {
        self.next_user();
        Item::Refuse {
            call: self.opens.top().call,
            user,
            reason,
        }
    }

    /// The callback has begun, at this place of the history.
    fn called_back(&mut self, setup: &Setup, user: UserNo, reg: u32, place: u32) -> Item
        requires call { IsInCall self.old }
        requires user { IsUser setup.now user.0 }
        requires room { HasFrameRoom (declared_in setup.now user.0).kind self.old.stacks }
        ensures task { self.new ≡ called_back self.old (declared_in setup.now user.0) user reg place }
        ensures item { result ≡ Back (top self.old).call user }
    {
        let spec = setup.user(user);
        let call = self.opens.top().call;
        let ctx = self.opens.top().ctx;
        if let Some(func) = spec.ipmodify {
            self.set_runs(func);
        }
        // The Miss comes before the act: who reads the history finds it directly after the Back that
        // it belongs to, and not after the call of the act.
        self.moment = if self.lacks_frame(spec, user, reg, place) {
            Moment::Mark(ToMark::Missing { user })
        } else {
            act_in(spec, user, ctx)
        };
        Item::Back { call, user }
    }

    /// Gives the call a frame, if the kind of the user asks for one, and lets the frame owe the user its
    /// exit. The answer is whether there is no frame for the exit; for a graph or profile user there is
    /// one, since the depth rule has let it in.
    fn lacks_frame(&mut self, spec: &Spec, user: UserNo, reg: u32, place: u32) -> bool
        requires call { IsInCall self.old }
        requires room { HasFrameRoom spec.now.kind self.old.stacks }
        ensures stacks { self.new ≡ record self.old { stacks = stacks_after spec.now.kind self.old.stacks (record { user = user; reg = reg; entry = place }) } }
        ensures lacks { result ≡ lacks_frame spec.now.kind self.old.stacks }
    {
        if spec.kind.has_depth() {
            graph_users::enter(&mut self.stacks, user, reg, place);
            return false;
        }
        spec.kind.is_fprobe()
            && probe_entry(&mut self.stacks, spec, user, reg, place) == Probe::Missed
    }

    fn missed(&mut self, setup: &Setup, user: UserNo) -> Item
        requires call { IsInCall self.old }
        requires user { IsUser setup.now user.0 }
        ensures task { self.new ≡ missed self.old (declared_in setup.now user.0) user }
        ensures item { result ≡ Miss (top self.old).call user }
    {
        let call = self.opens.top().call;
        let ctx = self.opens.top().ctx;
        self.moment = act_in(setup.user(user), user, ctx);
        Item::Miss { call, user }
    }

    /// The act of the user that is called back calls a function, in the context of the callback or in
    /// that of an interrupt.
    fn acted(&mut self, setup: &Setup, user: UserNo, func: FuncNo, ctx: Ctx) -> Item
        requires call { IsInCall self.old }
        requires room { HasCallRoom self.old }
        requires context { CanRaise self.old ctx }
        ensures task { self.new ≡ acted self.old setup.now.shape user func ctx }
        ensures item { result ≡ Enter (next_call self.old) ctx func (latest self.old.opens.calls) }
    {
        if !same_context(ctx, self.opens.top().ctx) {
            // The interrupt has a guard of its own, and its call may call users back, this one too.
            self.guards.raise(ctx);
        }
        self.set_user(user);
        self.enter(func, ctx, false, &setup.map)
    }

    /// The callback has ended. Its level of the guard is given back no earlier: the call of its act
    /// would call the user back again, and so on without an end.
    fn callback_ended(&mut self, user: UserNo) -> Item
        requires call { IsInCall self.old }
        requires held { IsHeld self.old.guards }
        ensures task { self.new ≡ callback_ended self.old }
        ensures item { result ≡ BackEnd (top self.old).call user }
    {
        self.guards.leave();
        self.next_user();
        Item::BackEnd {
            call: self.opens.top().call,
            user,
        }
    }

    /// After a user: the walk goes on from where it is, also after a callback that took long. Begun
    /// again, it would call its first user back for ever. A trampoline has one user alone.
    fn next_user(&mut self)
        requires { IsInCall self.old }
        ensures { self.new ≡ passed self.old }
    {
        self.moment = match self.opens.top().ran {
            Ran::List => Moment::Load(ToLoad::Walking),
            Ran::Nop | Ran::Own(_) => Moment::Mark(ToMark::Closing),
        };
    }

    fn set_ran(&mut self, ran: Ran)
        requires { IsInCall self.old }
        ensures { self.new ≡ record self.old { opens = with_latest self.old.opens (record (top self.old) { ran = ran }) } }
    {
        self.opens.set_top(OpenCall {
            ran,
            ..*self.opens.top()
        });
    }

    fn set_runs(&mut self, runs: FuncNo)
        requires { IsInCall self.old }
        ensures { self.new ≡ record self.old { opens = with_latest self.old.opens (record (top self.old) { runs = runs }) } }
    {
        self.opens.set_top(OpenCall {
            runs,
            ..*self.opens.top()
        });
    }

    fn set_user(&mut self, user: UserNo)
        requires { IsInCall self.old }
        ensures { self.new ≡ record self.old { opens = with_latest self.old.opens (record (top self.old) { user = user }) } }
    {
        self.opens.set_top(OpenCall {
            user,
            ..*self.opens.top()
        });
    }
}
