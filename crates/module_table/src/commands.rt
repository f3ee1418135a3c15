//! Commands that a line adds, and the desk that carries them out.

ghost use Rattle.std.specs.Prelude.{◌≡◌, ℕ, ◌+◌, ◌<◌, ◌≤◌, ◌^◌, ◌++◌, [], ◌∷◌, length, map, IfOk, OnOk, OnErr, vec_len, vec_capacity};
ghost use Rattle.std.specs.List.{AllByRecursion as Each};
ghost use Rattle.ft_base.specs.Desk.{answer_on};
ghost use Rattle.ft_desk.specs.Declarations.{job_of};
ghost use Rattle.ft_desk.specs.Commands.{command_of, IsInShape};
ghost use Rattle.module_table.specs.Lines.{desk_after};
ghost use Rattle.module_table.specs.Made.{depth_after};

use ft_base::{Answer, NoMemory};
use ft_desk::{Command, Desk};
use site_set::Edit;

/// Carries out a command and adds it to a list. The answer is the command's. The error says that memory
/// ran out, and nothing has changed then.
pub(crate) fn run_one(
    desk: &mut Desk,
    command: Command,
    out: &mut Vec<Command>,
) -> Result<Answer, NoMemory>
    requires numbers { IsInShape desk.old.declared command }
    requires room { desk.old.commands + 1 < 2 ^ 32 }
    ensures answer { IfOk result (λ answer. answer ≡ answer_on (job_of desk.old.declared) desk.old.state (command_of desk.old.declared.tasks command)) }
    ensures added { OnOk result (out.new.items ≡ out.old.items ++ command ∷ []) }
    ensures state { OnOk result (desk.new.state ≡ desk_after (job_of desk.old.declared) desk.old.state desk.old.commands (command_of desk.old.declared.tasks command ∷ [])) }
    ensures count { OnOk result (desk.new.commands ≡ desk.old.commands + 1) }
    ensures declared { desk.new.declared ≡ desk.old.declared }
    ensures desk_err { OnErr result (desk.new ≡ desk.old) }
    ensures out_err { OnErr result (out.new.items ≡ out.old.items) }
{
    out.reserve(1).map_err(|_| NoMemory)?;
    let answer = plan_one(desk, &command);
    out.push_reserved(command);
    Ok(answer)
}

/// Carries out commands and moves them to the end of a list. The error says that memory ran out, and
/// nothing has changed then.
pub(crate) fn run_all(
    desk: &mut Desk,
    mut commands: Vec<Command>,
    out: &mut Vec<Command>,
) -> Result<(), NoMemory>
    requires numbers { Each (IsInShape desk.old.declared) commands.items }
    requires room { desk.old.commands + length commands.items < 2 ^ 32 }
    ensures added { OnOk result (out.new.items ≡ out.old.items ++ commands.items) }
    ensures state { OnOk result (desk.new.state ≡ desk_after (job_of desk.old.declared) desk.old.state desk.old.commands (map (command_of desk.old.declared.tasks) commands.items)) }
    ensures count { OnOk result (desk.new.commands ≡ desk.old.commands + length commands.items) }
    ensures declared { desk.new.declared ≡ desk.old.declared }
    ensures desk_err { OnErr result (desk.new ≡ desk.old) }
    ensures out_err { OnErr result (out.new.items ≡ out.old.items) }
{
    out.reserve(commands.len()).map_err(|_| NoMemory)?;
    plan_all(desk, commands.as_slice());
    // There is room.
    let _ = out.append(&mut commands);
    Ok(())
}

/// Carries out commands on the desk.
pub(crate) fn plan_all(desk: &mut Desk, commands: &[Command])
    requires numbers { Each (IsInShape desk.old.declared) commands.now }
    requires room { desk.old.commands + length commands.now < 2 ^ 32 }
    ensures state { desk.new.state ≡ desk_after (job_of desk.old.declared) desk.old.state desk.old.commands (map (command_of desk.old.declared.tasks) commands.now) }
    ensures count { desk.new.commands ≡ desk.old.commands + length commands.now }
    ensures declared { desk.new.declared ≡ desk.old.declared }
{
    for command in commands {
        plan_one(desk, command);
    }
}

/// Carries out a command on the desk, if it is accepted.
fn plan_one(desk: &mut Desk, command: &Command) -> Answer
    requires numbers { IsInShape desk.old.declared command.now }
    requires room { desk.old.commands + 1 < 2 ^ 32 }
    ensures answer { result ≡ answer_on (job_of desk.old.declared) desk.old.state (command_of desk.old.declared.tasks command.now) }
    ensures state { desk.new.state ≡ desk_after (job_of desk.old.declared) desk.old.state desk.old.commands (command_of desk.old.declared.tasks command.now ∷ []) }
    ensures count { desk.new.commands ≡ desk.old.commands + 1 }
    ensures declared { desk.new.declared ≡ desk.old.declared }
{
    desk.plan(command)
}

/// The graph depth after a command.
pub(crate) fn depth_after(depth: u32, command: &Command) -> u32
    ensures { result ≡ depth_after depth command.now }
{
    match command {
        Command::MaxDepth(new) => *new,
        Command::Register(_)
        | Command::Unregister(_)
        | Command::Filter(_, _)
        | Command::Notrace(_, _)
        | Command::Pid(_)
        | Command::NoPid(_)
        | Command::Enable(_)
        | Command::Disable(_) => depth,
    }
}
