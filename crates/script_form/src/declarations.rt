//! Lines that declare functions, CPUs and tasks, that tracing is off, and the first line.

ghost use Rattle.std.specs.Prelude.{◌≡◌, map, option_map};
ghost use Rattle.script_form.specs.Forms.{version_form, func_form, tracing_form, cpu_form, task_form};
ghost use Rattle.script_form.specs.Read.{form_read};

use crate::form::LineForm;
use script_text::{name, number};

/// `ftrace 1`, `ftrace 2` or `ftrace 3`.
pub fn read_version<'a>(args: &[&'a str]) -> Option<LineForm<'a>>
    ensures { option_map form_read result ≡ version_form (map (λ w. w.now) args.now) }
{
    match args {
        [number] if *number == "1" => Some(LineForm::Version { number: 1 }),
        [number] if *number == "2" => Some(LineForm::Version { number: 2 }),
        [number] if *number == "3" => Some(LineForm::Version { number: 3 }),
        _ => None,
    }
}

/// `func NAME` or `func NAME MODULE`.
pub fn read_func<'a>(args: &[&'a str]) -> Option<LineForm<'a>>
    ensures { option_map form_read result ≡ func_form (map (λ w. w.now) args.now) }
{
    match args {
        [function] => {
            let name = name(function)?;
            Some(LineForm::Func { name, owner: None })
        }
        [function, owner] => {
            let function = name(function)?;
            let owner = name(owner)?;
            Some(LineForm::Func {
                name: function,
                owner: Some(owner),
            })
        }
        _ => None,
    }
}

/// `tracing off`.
pub fn read_tracing<'a>(args: &[&'a str]) -> Option<LineForm<'a>>
    ensures { option_map form_read result ≡ tracing_form (map (λ w. w.now) args.now) }
{
    match args {
        [word] if *word == "off" => Some(LineForm::TracingOff),
        _ => None,
    }
}

/// `cpu N quantum Q`.
pub fn read_cpu<'a>(args: &[&'a str]) -> Option<LineForm<'a>>
    ensures { option_map form_read result ≡ cpu_form (map (λ w. w.now) args.now) }
{
    match args {
        [cpu, word, quantum] if *word == "quantum" => {
            let cpu = number(cpu)?;
            let quantum = number(quantum)?;
            Some(LineForm::NewCpu { cpu, quantum })
        }
        _ => None,
    }
}

/// `task PID cpu N`.
pub fn read_task<'a>(args: &[&'a str]) -> Option<LineForm<'a>>
    ensures { option_map form_read result ≡ task_form (map (λ w. w.now) args.now) }
{
    match args {
        [pid, word, cpu] if *word == "cpu" => {
            let pid = number(pid)?;
            let cpu = number(cpu)?;
            Some(LineForm::NewTask { pid, cpu })
        }
        _ => None,
    }
}
