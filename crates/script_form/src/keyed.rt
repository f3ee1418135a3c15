//! The key chooses what a line can say.

ghost use Rattle.std.specs.Prelude.{◌≡◌, map, option_map, IfOk};
ghost use Rattle.script_form.specs.Forms.{sched_form};
ghost use Rattle.script_form.specs.Lines.{unlisted_form, keyed_form};
ghost use Rattle.script_form.specs.Read.{form_read};

use crate::acts::read_act;
use crate::arguments::{only_name, only_number, only_word};
use crate::control::read_ctl;
use crate::declarations::{read_cpu, read_func, read_task, read_tracing, read_version};
use crate::form::LineForm;
use crate::users::read_user;
use ft_schedule::read_items;
use std::alloc::{AllocError, Global};

/// `sched` and one or more items.
fn read_sched<'a>(alloc: Global, args: &[&'a str]) -> Result<Option<LineForm<'a>>, AllocError>
    ensures { IfOk result (λ r. option_map form_read r ≡ sched_form (map (λ w. w.now) args.now)) }
{
    if args.is_empty() {
        return Ok(None);
    }
    match read_items(alloc, args)? {
        Some(items) => Ok(Some(LineForm::Sched { items })),
        None => Ok(None),
    }
}

/// A declaration or an act, which has no list.
fn read_unlisted<'a>(key: &str, args: &[&'a str]) -> Option<LineForm<'a>>
    ensures { option_map form_read result ≡ unlisted_form key.now (map (λ w. w.now) args.now) }
{
    match key {
        "ftrace" => read_version(args),
        "func" => read_func(args),
        "depth" => Some(LineForm::Depth {
            frames: only_number(args)?,
        }),
        "tramps" => Some(LineForm::Tramps {
            slots: only_number(args)?,
        }),
        "absent" => Some(LineForm::Absent {
            owner: only_name(args)?,
        }),
        "ring" => Some(LineForm::Ring {
            entries: only_number(args)?,
        }),
        "tracing" => read_tracing(args),
        "trigger" => Some(LineForm::Trigger {
            text: only_word(args)?,
        }),
        "user" => read_user(args),
        "cpu" => read_cpu(args),
        "task" => read_task(args),
        "lane" => Some(LineForm::NewLane {
            lane: only_number(args)?,
        }),
        _ => read_act(key, args),
    }
}

/// What a line says that has this key.
pub fn read_keyed<'a>(
    alloc: Global,
    key: &str,
    args: &[&'a str],
) -> Result<Option<LineForm<'a>>, AllocError>
    ensures { IfOk result (λ r. option_map form_read r ≡ keyed_form key.now (map (λ w. w.now) args.now)) }
{
    match key {
        // Most lines that have arguments are calls, and each key that is tried costs a comparison.
        "call" => Ok(read_act(key, args)),
        "ctl" => read_ctl(alloc, args),
        "sched" => read_sched(alloc, args),
        _ => Ok(read_unlisted(key, args)),
    }
}
