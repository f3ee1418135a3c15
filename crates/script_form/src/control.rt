//! The lines of control.

ghost use Rattle.std.specs.Prelude.{◌≡◌, [], ◌∷◌, map, option_map, IfOk};
ghost use Rattle.script_form.specs.Forms.{arrow_of, write_form, pids_form, until_form, command_form, control_form, ctl_form};
ghost use Rattle.script_form.specs.Read.{form_read};

use crate::arguments::{only_name, only_number};
use crate::form::LineForm;
use ft_base::Half;
use script_text::{all_read, name, number};
use std::alloc::{AllocError, Global};

/// Whether an arrow appends.
fn read_arrow(word: &str) -> Option<bool>
    ensures { result ≡ arrow_of word.now }
{
    match word {
        ">" => Some(false),
        ">>" => Some(true),
        _ => None,
    }
}

/// `filter` or `notrace`, and `U >`.
fn read_clear<'a>(half: Half, user: &'a str, arrow: &str) -> Option<LineForm<'a>>
    ensures { option_map form_read result ≡ write_form half (user.entry.now ∷ arrow.now ∷ []) }
{
    if arrow != ">" {
        return None;
    }
    let user = name(user)?;
    Some(LineForm::Write {
        half,
        append: false,
        user,
        text: "",
    })
}

/// `filter` or `notrace`, and `U > TEXT` or `U >> TEXT`.
fn read_put<'a>(half: Half, user: &'a str, arrow: &str, text: &'a str) -> Option<LineForm<'a>>
    ensures { option_map form_read result ≡ write_form half (user.entry.now ∷ arrow.now ∷ text.entry.now ∷ []) }
{
    let append = read_arrow(arrow)?;
    let user = name(user)?;
    Some(LineForm::Write {
        half,
        append,
        user,
        text,
    })
}

/// `filter` or `notrace`, and `U > TEXT`, `U >> TEXT` or `U >`.
fn read_write<'a>(half: Half, args: &[&'a str]) -> Option<LineForm<'a>>
    ensures { option_map form_read result ≡ write_form half (map (λ w. w.now) args.now) }
{
    match args {
        [user, arrow] => read_clear(half, user, arrow),
        [user, arrow, text] => read_put(half, user, arrow, text),
        _ => None,
    }
}

/// `until PID N`.
fn read_until<'a>(args: &[&'a str]) -> Option<LineForm<'a>>
    ensures { option_map form_read result ≡ until_form (map (λ w. w.now) args.now) }
{
    match args {
        [pid, acts] => {
            let pid = number(pid)?;
            let acts = number(acts)?;
            Some(LineForm::Until { pid, acts })
        }
        _ => None,
    }
}

/// A command without a list, the wait, or what loads or unloads a module.
fn read_command<'a>(key: &str, args: &[&'a str]) -> Option<LineForm<'a>>
    ensures { option_map form_read result ≡ command_form key.now (map (λ w. w.now) args.now) }
{
    match key {
        "register" => Some(LineForm::Register {
            user: only_name(args)?,
        }),
        "unregister" => Some(LineForm::Unregister {
            user: only_name(args)?,
        }),
        "filter" => read_write(Half::Filter, args),
        "notrace" => read_write(Half::Notrace, args),
        "enable" => Some(LineForm::Enable {
            user: only_name(args)?,
        }),
        "disable" => Some(LineForm::Disable {
            user: only_name(args)?,
        }),
        "maxdepth" => Some(LineForm::MaxDepth {
            depth: only_number(args)?,
        }),
        "until" => read_until(args),
        "load" => Some(LineForm::Load {
            owner: only_name(args)?,
        }),
        "unload" => Some(LineForm::Unload {
            owner: only_name(args)?,
        }),
        _ => None,
    }
}

/// `pid PID..`, or `nopid PID..` if these are excluded.
fn read_pids<'a>(
    alloc: Global,
    excluded: bool,
    words: &[&'a str],
) -> Result<Option<LineForm<'a>>, AllocError>
    ensures { IfOk result (λ r. option_map form_read r ≡ pids_form excluded (map (λ w. w.now) words.now)) }
{
    match all_read(alloc, words, |word| number(word))? {
        Some(pids) => Ok(Some(LineForm::Pids { excluded, pids })),
        None => Ok(None),
    }
}

/// A line of control, whose key this is.
fn read_control<'a>(
    alloc: Global,
    key: &str,
    args: &[&'a str],
) -> Result<Option<LineForm<'a>>, AllocError>
    ensures { IfOk result (λ r. option_map form_read r ≡ control_form key.now (map (λ w. w.now) args.now)) }
{
    match key {
        "pid" => read_pids(alloc, false, args),
        "nopid" => read_pids(alloc, true, args),
        _ => Ok(read_command(key, args)),
    }
}

/// `ctl`, and what control does.
pub fn read_ctl<'a>(alloc: Global, args: &[&'a str]) -> Result<Option<LineForm<'a>>, AllocError>
    ensures { IfOk result (λ r. option_map form_read r ≡ ctl_form (map (λ w. w.now) args.now)) }
{
    match args.split_first() {
        None => Ok(None),
        Some((key, rest)) => read_control(alloc, key, rest),
    }
}
