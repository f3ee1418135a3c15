//! The line of a user.

ghost use Rattle.std.specs.Prelude.{◌≡◌, map, option_map, codes};
ghost use Rattle.std.specs.Option.{option_copied};
ghost use Rattle.script_form.specs.Users.{flag, exit_kind, kind_of, ipmodify_of, act_with, act_of, options_form, user_form};
ghost use Rattle.script_form.specs.Read.{act_read, form_read};

use crate::form::{LineForm, UserAct, UserLine};
use crate::options::{argument, flag};
use ft_base::Kind;
use script_text::name;

/// An fprobe: the words after it say whether it has an exit handler, and whether its entry handler
/// cancels that.
fn read_exit<'w, 'a>(words: &'w [&'a str]) -> (Kind, &'w [&'a str])
    ensures { exit_kind (flag (codes "exit") (map (λ w. w.now) words.entry.now)) ≡ (result.0, map (λ w. w.now) result.1.now) }
{
    let (exit, rest) = flag("exit", words);
    if !exit {
        let kind = Kind::Fprobe {
            exit: false,
            cancel: false,
        };
        return (kind, rest);
    }
    let (cancel, rest) = flag("cancel", rest);
    (Kind::Fprobe { exit: true, cancel }, rest)
}

/// The kind, and the words after it.
fn read_kind<'w, 'a>(words: &'w [&'a str]) -> Option<(Kind, &'w [&'a str])>
    ensures { option_map (λ r. (r.0, map (λ w. w.now) r.1.now)) result ≡ kind_of (map (λ w. w.now) words.entry.now) }
{
    let (word, rest) = words.split_first()?;
    match *word {
        "function" => Some((Kind::Function, rest)),
        "graph" => Some((Kind::Graph, rest)),
        "profile" => Some((Kind::Profile, rest)),
        "fprobe" => Some(read_exit(rest)),
        _ => None,
    }
}

/// The function of `ipmodify`. `None` says that it is no name, or that the user is of another kind
/// than `function`.
fn read_ipmodify<'a>(kind: Kind, said: Option<&'a str>) -> Option<Option<&'a str>>
    ensures { option_map (λ o. option_copied o) result ≡ ipmodify_of kind (option_map (λ w. w.now) said.entry) }
{
    match (kind, said) {
        (_, None) => Some(None),
        (Kind::Function, Some(word)) => Some(Some(name(word)?)),
        (Kind::Graph | Kind::Profile | Kind::Fprobe { .. }, Some(_)) => None,
    }
}

/// `call FUNC` or `irq FUNC`.
fn read_act<'a>(key: &str, function: &'a str) -> Option<UserAct<'a>>
    ensures { option_map act_read result ≡ act_with key.now function.entry.now }
{
    match key {
        "call" => Some(UserAct::Call {
            function: name(function)?,
        }),
        "irq" => Some(UserAct::Irq {
            function: name(function)?,
        }),
        _ => None,
    }
}

/// What comes last: nothing, or an act.
fn read_last<'a>(words: &[&'a str]) -> Option<Option<UserAct<'a>>>
    ensures { option_map (λ o. option_map act_read o) result ≡ act_of (map (λ w. w.now) words.now) }
{
    match words {
        [] => Some(None),
        [key, function] => Some(Some(read_act(key, function)?)),
        _ => None,
    }
}

/// The options of a user of this name and kind.
fn read_options<'a>(name: &'a str, kind: Kind, words: &[&'a str]) -> Option<LineForm<'a>>
    ensures { option_map form_read result ≡ options_form name.entry.now kind (map (λ w. w.now) words.now) }
{
    let (regs, words) = flag("regs", words);
    let (modifies, words) = argument("ipmodify", words);
    let (pid, words) = flag("pid", words);
    let ipmodify = read_ipmodify(kind, modifies)?;
    let act = read_last(words)?;
    Some(LineForm::User(UserLine {
        name,
        kind,
        regs,
        ipmodify,
        pid,
        act,
    }))
}

/// `user NAME KIND OPTIONS`.
pub fn read_user<'a>(args: &[&'a str]) -> Option<LineForm<'a>>
    ensures { option_map form_read result ≡ user_form (map (λ w. w.now) args.now) }
{
    let (word, rest) = args.split_first()?;
    let name = name(word)?;
    let (kind, options) = read_kind(rest)?;
    read_options(name, kind, options)
}
