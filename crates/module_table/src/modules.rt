//! Modules, and the desk that they hide functions from.

ghost use Rattle.std.specs.Prelude.{◌≡◌, ℕ, ◌+◌, ◌-◌, ◌<◌, ◌≤◌, ◌^◌, ◌↔◌, ◌&&◌, ◌||◌, not, true, false, ◌∷◌, [], length, map, set, if◌then◌else◌, get_or, All, Some, IsTrue, IfOk, IfSome, OnOk, OnErr};
ghost use Rattle.ft_base.specs.declared.limits.TheConstants.{USERS};
ghost use Rattle.ft_base.specs.Marks.{holds, is_empty};
ghost use Rattle.ft_base.specs.Job.{MaxDepth, Notrace};
ghost use Rattle.ft_base.specs.Desk.{is_accepted, lowest, opening};
ghost use Rattle.site_set.specs.Edits.{plain_edit};
ghost use Rattle.word_map.specs.Shapes.{IsShape};
ghost use Rattle.ft_desk.specs.Declarations.{declared_by, job_of};
ghost use Rattle.ft_desk.specs.Commands.{command_of, IsInShape};
ghost use Rattle.func_table.specs.Modules.{modules_in};
ghost use Rattle.module_table.specs.Lines.{Plain, Load, Unload, after_line, answer_to, at_first, clash, commands_for, desk_after, hidden, hidden_now, holder_of, opening_of, replaces, selects};
ghost use Rattle.module_table.specs.Reached.{IsLineIn, IsReached, IsSafe, kept_back, moved, moving};
ghost use Rattle.module_table.specs.Made.{Appends, is_masking, line_of};

use crate::commands::{depth_after, plan_all, run_all, run_one};
use crate::hidden::{first_hidden, hidden_functions, is_loaded, with_module};
use crate::line::ModLine;
use crate::masks::{edited_set, mask, modifiers, moving, no_sets, opening};
use crate::names::ModuleNames;
use crate::owners::{loaded_at_first, owners_of};
use filter_hash::HashPair;
use ft_base::{Answer, FuncNo, Half, NoMemory, UserNo};
use ft_desk::{Command, Desk};
use func_table::FuncTable;
use site_set::{Edit, SiteSet};
use std::alloc::Global;
use std::marker::Model;
use user_specs::Spec;
use word_map::Shape;

/// Which modules are loaded, and the desk after the lines so far. It gives each line its answer and the
/// commands that carry it out. Contracts see what is known between two lines.
#[derive(Drop)]
pub struct Modules {
    alloc: Global,
    /// The module of each function, if it lies in one.
    owners: Vec<Option<u32>>,
    /// The functions that were hidden at first, if a module was absent.
    first: Option<SiteSet>,
    loaded: Vec<bool>,
    /// The functions that each user keeps out itself.
    own: Vec<SiteSet>,
    /// Of each user whether it replaces functions.
    modifiers: Vec<bool>,
    /// The graph depth of the desk.
    depth: u32,
    desk: Desk,
}

impl Model for Modules {
    ghost use Rattle.module_table.specs.Lines.{Between};
    ghost use Rattle.module_table.specs.ModulesInvariant.{between, ModulesInvariant};

    ghost Value = { Between };

    ghost view = { between };

    ghost invariant = { ModulesInvariant };
}

impl Modules {
    /// What is known before the first line, with these modules absent. Their numbers count from 0 in the
    /// order of the modules' first functions. The error says that memory ran out.
    pub fn new(
        alloc: Global,
        table: &FuncTable,
        specs: &[Spec],
        shape: Shape,
        absent: &[u32],
    ) -> Result<Modules, NoMemory>
        requires shape { IsShape shape }
        requires functions { length table.now.functions ≡ shape.funcs }
        requires users { length specs.now ≡ shape.users }
        requires absent { All (λ m. m < length (modules_in table.now.functions)) absent.now }
        ensures { IfOk result (λ m. m ≡ at_first (declared_by specs.now shape) table.now.functions absent.now) }
    {
        let names = ModuleNames::new(alloc, table)?;
        let owners = owners_of(alloc, table, &names)?;
        let loaded = loaded_at_first(alloc, names.len(), absent)?;
        let first = first_hidden(alloc, owners.as_slice(), loaded.as_slice(), absent)?;
        let own = no_sets(alloc, shape.users, shape.funcs)?;
        let modifiers = modifiers(alloc, specs)?;
        let desk = opened(alloc, specs, shape, &first)?;
        Ok(Modules {
            alloc,
            owners,
            first,
            loaded,
            own,
            modifiers,
            depth: 0,
            desk,
        })
    }

    /// The commands with which control opens, whatever lines came since: with an absent module one for
    /// each user, which hides the functions of the absent modules from it; else none. The error says that
    /// memory ran out.
    pub fn opening(&self, alloc: Global) -> Result<Vec<Command>, NoMemory>
        ensures { IfOk result (λ v. Appends self.now.declared [] v.items (opening_of self.now.declared self.now.first)) }
    {
        let commands = opening(alloc, self.desk.users(), self.desk.functions(), &self.first)?;
        Ok(commands)
    }

    /// How many modules there are.
    pub fn modules(&self) -> u32
        ensures { result ≡ length self.now.loaded }
    {
        self.loaded.len() as u32
    }

    /// Whether a module is loaded.
    pub fn is_loaded(&self, number: u32) -> bool
        ensures { result ≡ get_or self.now.loaded number true }
    {
        is_loaded(self.loaded.as_slice(), number)
    }

    /// How many commands there were so far, those of the opening included.
    pub fn commands(&self) -> u32
        ensures value { result ≡ self.now.commands }
        ensures few { length self.now.declared.specs ≤ USERS }
        ensures state { IsReached self.now }
    {
        self.desk.commands()
    }

    /// Whether all numbers of a line are in range, as `expand` asks.
    pub fn takes(&self, line: &ModLine) -> bool
        ensures { IsTrue result ↔ IsLineIn self.now.declared (length self.now.loaded) (line_of self.now.declared.tasks line.now) }
    {
        match line {
            ModLine::Plain(command) => self.desk.takes(command),
            ModLine::Load(module) | ModLine::Unload(module) => {
                (*module as usize) < self.loaded.len()
            }
        }
    }

    /// The answer of a line; the commands that carry it out are added at the end of `out`. A load is `Busy`
    /// where two users would replace one function then (`ftrace-uses.rst`, `FTRACE_OPS_FL_IPMODIFY`). The
    /// error says that memory ran out, and nothing has changed then.
    pub fn expand(&mut self, line: &ModLine, out: &mut Vec<Command>) -> Result<Answer, NoMemory>
        requires line { IsLineIn self.old.declared (length self.old.loaded) (line_of self.old.declared.tasks line.now) }
        requires room { self.old.commands + length self.old.declared.specs + 1 < 2 ^ 32 }
        ensures answer { IfOk result (λ answer. answer ≡ answer_to self.old (line_of self.old.declared.tasks line.now)) }
        ensures added { OnOk result (Appends self.old.declared out.old.items out.new.items (commands_for self.old (line_of self.old.declared.tasks line.now))) }
        ensures after { OnOk result (self.new ≡ after_line self.old (line_of self.old.declared.tasks line.now)) }
        ensures err { OnErr result (self.new ≡ self.old) }
        ensures out_err { OnErr result (out.new.items ≡ out.old.items) }
    {
        match line {
            ModLine::Plain(command) => self.expand_command(command, out),
            ModLine::Load(module) => self.load(*module, out),
            ModLine::Unload(module) => self.unload(*module, out),
        }
    }

    fn expand_command(
        &mut self,
        command: &Command,
        out: &mut Vec<Command>,
    ) -> Result<Answer, NoMemory>
        requires line { IsInShape self.old.declared command.now }
        requires room { self.old.commands + 1 < 2 ^ 32 }
        ensures answer { IfOk result (λ answer. answer ≡ answer_to self.old (Plain (command_of self.old.declared.tasks command.now))) }
        ensures added { OnOk result (Appends self.old.declared out.old.items out.new.items (commands_for self.old (Plain (command_of self.old.declared.tasks command.now)))) }
        ensures after { OnOk result (self.new ≡ after_line self.old (Plain (command_of self.old.declared.tasks command.now))) }
        ensures err { OnErr result (self.new ≡ self.old) }
        ensures out_err { OnErr result (out.new.items ≡ out.old.items) }
    {
        if let Command::Notrace(user, edit) = command {
            if edit.clear || !edit.set.is_empty() {
                return self.edit_own(*user, edit, out);
            }
        }
        self.pass_on(command, out)
    }

    /// A command that is carried out as it is.
    fn pass_on(&mut self, command: &Command, out: &mut Vec<Command>) -> Result<Answer, NoMemory>
        requires line { IsInShape self.old.declared command.now }
        requires plain { is_masking command.now ≡ false }
        requires room { self.old.commands + 1 < 2 ^ 32 }
        ensures answer { IfOk result (λ answer. answer ≡ answer_to self.old (Plain (command_of self.old.declared.tasks command.now))) }
        ensures added { OnOk result (Appends self.old.declared out.old.items out.new.items (commands_for self.old (Plain (command_of self.old.declared.tasks command.now)))) }
        ensures after { OnOk result (self.new ≡ after_line self.old (Plain (command_of self.old.declared.tasks command.now))) }
        ensures err { OnErr result (self.new ≡ self.old) }
        ensures out_err { OnErr result (out.new.items ≡ out.old.items) }
    {
        let copy = command.copy()?;
        let answer = run_one(&mut self.desk, copy, out)?;
        self.depth = depth_after(self.depth, command);
        Ok(answer)
    }

    /// An edit of a user's own set, which is carried out by the user's mask.
    fn edit_own(
        &mut self,
        user: UserNo,
        edit: &Edit,
        out: &mut Vec<Command>,
    ) -> Result<Answer, NoMemory>
        requires user { user.0 < length self.old.declared.specs }
        requires size { length edit.now.set ≡ self.old.declared.funcs }
        requires selects { selects (plain_edit edit.now) ≡ true }
        requires room { self.old.commands + 1 < 2 ^ 32 }
        ensures answer { IfOk result (λ answer. answer ≡ answer_to self.old (Plain (Notrace user.0 (plain_edit edit.now)))) }
        ensures added { OnOk result (Appends self.old.declared out.old.items out.new.items (commands_for self.old (Plain (Notrace user.0 (plain_edit edit.now))))) }
        ensures after { OnOk result (self.new ≡ after_line self.old (Plain (Notrace user.0 (plain_edit edit.now)))) }
        ensures err { OnErr result (self.new ≡ self.old) }
        ensures out_err { OnErr result (out.new.items ≡ out.old.items) }
    {
        let own = edited_set(&self.own[user.0 as usize], edit)?;
        let hidden = hidden_functions(self.alloc, self.owners.as_slice(), self.loaded.as_slice())?;
        let command = mask(user, &own, &hidden)?;
        let answer = run_one(&mut self.desk, command, out)?;
        keep_if(is_accepted(answer), &mut self.own, user, own);
        Ok(answer)
    }

    fn load(&mut self, number: u32, out: &mut Vec<Command>) -> Result<Answer, NoMemory>
        requires number { number < length self.old.loaded }
        requires room { self.old.commands + length self.old.declared.specs + 1 < 2 ^ 32 }
        ensures answer { IfOk result (λ answer. answer ≡ answer_to self.old (Load number)) }
        ensures added { OnOk result (Appends self.old.declared out.old.items out.new.items (commands_for self.old (Load number))) }
        ensures after { OnOk result (self.new ≡ after_line self.old (Load number)) }
        ensures err { OnErr result (self.new ≡ self.old) }
        ensures out_err { OnErr result (out.new.items ≡ out.old.items) }
    {
        if self.is_loaded(number) {
            self.keep_back(out)?;
            return Ok(Answer::Already);
        }
        let loaded = with_module(&self.loaded, number, true)?;
        let hidden = hidden_functions(self.alloc, self.owners.as_slice(), loaded.as_slice())?;
        let answer = self.clash(&hidden);
        if !is_accepted(answer) {
            self.keep_back(out)?;
            return Ok(answer);
        }
        self.move_to(loaded, &hidden, out)?;
        Ok(answer)
    }

    fn unload(&mut self, number: u32, out: &mut Vec<Command>) -> Result<Answer, NoMemory>
        requires number { number < length self.old.loaded }
        requires room { self.old.commands + length self.old.declared.specs + 1 < 2 ^ 32 }
        ensures answer { IfOk result (λ answer. answer ≡ answer_to self.old (Unload number)) }
        ensures added { OnOk result (Appends self.old.declared out.old.items out.new.items (commands_for self.old (Unload number))) }
        ensures after { OnOk result (self.new ≡ after_line self.old (Unload number)) }
        ensures err { OnErr result (self.new ≡ self.old) }
        ensures out_err { OnErr result (out.new.items ≡ out.old.items) }
    {
        if !self.is_loaded(number) {
            self.keep_back(out)?;
            return Ok(Answer::NotThere);
        }
        let loaded = with_module(&self.loaded, number, false)?;
        let hidden = hidden_functions(self.alloc, self.owners.as_slice(), loaded.as_slice())?;
        self.move_to(loaded, &hidden, out)?;
        Ok(Answer::Accepted)
    }

    /// A load or unload is refused. The graph depth alone is set, to what it is, so that this line too has
    /// a last command.
    fn keep_back(&mut self, out: &mut Vec<Command>) -> Result<(), NoMemory>
        requires room { self.old.commands + 1 < 2 ^ 32 }
        ensures added { OnOk result (Appends self.old.declared out.old.items out.new.items (MaxDepth self.old.desk.depth ∷ [])) }
        ensures after { OnOk result (self.new ≡ kept_back self.old) }
        ensures err { OnErr result (self.new ≡ self.old) }
        ensures out_err { OnErr result (out.new.items ≡ out.old.items) }
    {
        run_one(&mut self.desk, Command::MaxDepth(self.depth), out)?;
        Ok(())
    }

    /// These modules are loaded from now on, and these functions hidden: all users are masked anew.
    fn move_to(
        &mut self,
        loaded: Vec<bool>,
        functions: &SiteSet,
        out: &mut Vec<Command>,
    ) -> Result<(), NoMemory>
        requires functions { functions.now ≡ hidden self.old.owners loaded.items }
        requires modules { length loaded.items ≡ length self.old.loaded }
        requires safe { IsSafe self.old loaded.items }
        requires room { self.old.commands + length self.old.declared.specs + 1 < 2 ^ 32 }
        ensures added { OnOk result (Appends self.old.declared out.old.items out.new.items (moving self.old loaded.items)) }
        ensures after { OnOk result (self.new ≡ moved self.old loaded.items) }
        ensures err { OnErr result (self.new ≡ self.old) }
        ensures out_err { OnErr result (out.new.items ≡ out.old.items) }
    {
        let commands = moving(self.alloc, self.own.as_slice(), functions, self.depth)?;
        run_all(&mut self.desk, commands, out)?;
        self.loaded = loaded;
        Ok(())
    }

    /// The answer to a load after which these functions are hidden.
    fn clash(&self, hidden: &SiteSet) -> Answer
        requires { length hidden.now ≡ self.now.declared.funcs }
        ensures { result ≡ clash self.now hidden.now }
    {
        for f in 0..self.desk.functions() {
            if let Some(holder) = self.holder(f, hidden) {
                return Answer::Busy {
                    func: FuncNo(f),
                    holder: UserNo(holder),
                };
            }
        }
        Answer::Accepted
    }

    /// The lowest user that replaces the function if these are hidden, where another one does too.
    fn holder(&self, f: u32, hidden: &SiteSet) -> Option<u32>
        requires function { f < self.now.declared.funcs }
        requires size { length hidden.now ≡ self.now.declared.funcs }
        ensures { result ≡ holder_of self.now hidden.now f }
    {
        match self.next_holder(f, 0, hidden) {
            None => None,
            Some(first) => self.shared(f, first, hidden),
        }
    }

    /// The lowest user that replaces the function, if another one does too.
    fn shared(&self, f: u32, first: u32, hidden: &SiteSet) -> Option<u32>
        requires function { f < self.now.declared.funcs }
        requires size { length hidden.now ≡ self.now.declared.funcs }
        requires first { Some first ≡ lowest (replaces self.now hidden.now f) 0 (length self.now.declared.specs - 0) }
        requires small { first < USERS }
        ensures { result ≡ holder_of self.now hidden.now f }
    {
        match self.next_holder(f, first + 1, hidden) {
            None => None,
            Some(_) => Some(first),
        }
    }

    /// The lowest user, of those from a number on, that replaces the function if these are hidden.
    fn next_holder(&self, f: u32, from: u32, hidden: &SiteSet) -> Option<u32>
        requires function { f < self.now.declared.funcs }
        requires size { length hidden.now ≡ self.now.declared.funcs }
        ensures value { result ≡ lowest (replaces self.now hidden.now f) from (length self.now.declared.specs - from) }
        ensures small { IfSome result (λ u. u < USERS) }
    {
        for u in from..self.desk.users() {
            if self.replaces(UserNo(u), f, hidden) {
                return Some(u);
            }
        }
        None
    }

    /// Whether the user is registered and replaces the function if these are hidden.
    fn replaces(&self, user: UserNo, f: u32, hidden: &SiteSet) -> bool
        requires user { user.0 < length self.now.declared.specs }
        requires function { f < self.now.declared.funcs }
        requires size { length hidden.now ≡ self.now.declared.funcs }
        ensures { result ≡ replaces self.now hidden.now f user.0 }
    {
        if !self.desk.is_registered(user) || !self.modifiers[user.0 as usize] {
            return false;
        }
        let own = &self.own[user.0 as usize];
        is_matched(self.desk.pair(user), own, hidden, f)
    }
}

/// Whether a user with these sets matches the function if it keeps out its own set and these functions.
fn is_matched(pair: &HashPair, own: &SiteSet, hidden: &SiteSet, f: u32) -> bool
    requires function { f < length own.now }
    requires filter { length pair.now.filter ≡ length own.now }
    requires hidden { length hidden.now ≡ length own.now }
    ensures { result ≡ (((is_empty pair.now.filter || holds pair.now.filter f) && not (holds own.now f)) && not (holds hidden.now f)) }
{
    (pair.is_open() || pair.set(Half::Filter).contains(f))
        && !own.contains(f)
        && !hidden.contains(f)
}

/// Whether a command with this answer was accepted.
fn is_accepted(answer: Answer) -> bool
    ensures { result ≡ is_accepted answer }
{
    match answer {
        Answer::Accepted => true,
        Answer::Already
        | Answer::NotThere
        | Answer::Invalid
        | Answer::NoMatch
        | Answer::Busy { .. } => false,
    }
}

/// Puts a user's new set into the place of the old one, if an edit was accepted.
fn keep_if(accepted: bool, sets: &mut Vec<SiteSet>, user: UserNo, new: SiteSet)
    requires { user.0 < length sets.old.items }
    ensures { sets.new.items ≡ (if accepted then set sets.old.items user.0 new else sets.old.items) }
{
    if accepted {
        sets[user.0 as usize] = new;
    }
}

/// The desk of these users after the opening, with these functions hidden at first.
fn opened(
    alloc: Global,
    specs: &[Spec],
    shape: Shape,
    first: &Option<SiteSet>,
) -> Result<Desk, NoMemory>
    requires shape { IsShape shape }
    requires users { length specs.now ≡ shape.users }
    requires first { IfSome first.now (λ hidden. length hidden ≡ shape.funcs) }
    ensures declared { IfOk result (λ desk. desk.declared ≡ declared_by specs.now shape) }
    ensures state { IfOk result (λ desk. desk.state ≡ desk_after (job_of (declared_by specs.now shape)) (opening (job_of (declared_by specs.now shape))) 0 (opening_of (declared_by specs.now shape) first.now)) }
    ensures count { IfOk result (λ desk. desk.commands ≡ length (opening_of (declared_by specs.now shape) first.now)) }
{
    let mut desk = Desk::new(alloc, specs, shape)?;
    let commands = opening(alloc, shape.users, shape.funcs, first)?;
    plan_all(&mut desk, commands.as_slice());
    Ok(desk)
}
