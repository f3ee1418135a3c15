//! The acts of a task.

ghost use Rattle.std.specs.Prelude.{◌≡◌, map, option_map};
ghost use Rattle.script_form.specs.Lines.{act_form};
ghost use Rattle.script_form.specs.Read.{form_read};

use crate::arguments::{alone, only_name, only_number};
use crate::form::LineForm;
use ft_base::Ctx;

/// `call FUNC`, `ret`, `softirq`, `irq`, `nmi`, `iret` or `after N`.
pub fn read_act<'a>(key: &str, args: &[&'a str]) -> Option<LineForm<'a>>
    ensures { option_map form_read result ≡ act_form key.now (map (λ w. w.now) args.now) }
{
    match key {
        "call" => Some(LineForm::Call {
            function: only_name(args)?,
        }),
        "ret" => alone(LineForm::Ret, args),
        "softirq" => alone(LineForm::Raise { to: Ctx::Softirq }, args),
        "irq" => alone(LineForm::Raise { to: Ctx::Irq }, args),
        "nmi" => alone(LineForm::Raise { to: Ctx::Nmi }, args),
        "iret" => alone(LineForm::Lower, args),
        "after" => Some(LineForm::After {
            commands: only_number(args)?,
        }),
        _ => None,
    }
}
