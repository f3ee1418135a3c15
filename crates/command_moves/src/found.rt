//! Laws: a command's moves, one after the other, are the steps of the word machine's control.

ghost use Rattle.std.specs.Prelude.{◌≡◌, ℕ, option_map};
ghost use Rattle.ft_base.specs.Job.{Job};
ghost use Rattle.word_map.specs.Ops.{placed};
ghost use Rattle.word_map.specs.Shapes.{shape_of};
ghost use Rattle.word_machine.specs.Commands.{effect};
ghost use Rattle.word_machine.specs.Control.{begin_in, control_got, control_next, Control};
ghost use Rattle.command_moves.specs.Stepper.{IsFor};
ghost use Rattle.command_moves.specs.Left.{InCommand, left_in};
ghost use Rattle.command_moves.specs.Program.{program};
ghost use Rattle.command_moves.specs.Steps.{Underway, op_of, stepped};

/// At its Begin all moves of a command are left.
pub fn moves_make_a_command()
    ensures { (job : Job) (s : Control) → left_in job s (begin_in job s.commands_done (effect job s.commands_done)) ≡ program job s }
{}

/// Within a command the stepper of what is left has control's next operation, and after it stands for
/// control again.
pub fn moves_left_go_on()
    ensures next { (job : Job) (s : Control) (c : Underway) → InCommand job s.position → IsFor job s s.position c
        → op_of c ≡ option_map (placed (shape_of job)) (control_next job s) }
    ensures got { (job : Job) (s : Control) (c : Underway) (v : ℕ) → InCommand job s.position → IsFor job s s.position c
        → IsFor job (control_got job s v) (control_got job s v).position (stepped c v) }
{}
