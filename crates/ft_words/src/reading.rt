//! From words to an order.

ghost use Rattle.std.specs.Prelude.{◌≡◌, ℕ, List, IfOk, OnOk, map, codes};
ghost use Rattle.std.specs.Option.{option_copied};
ghost use Rattle.ft_words.specs.declared.order.Form.{Form};
ghost use Rattle.ft_words.specs.declared.order.Order.{Order};
ghost use Rattle.ft_words.specs.Language.{Text, Spells, SaysForm, SaysSeed, Gives};

use crate::command::{command, find};
use crate::order::{Form, Order, WordsFault, form_said};
use crate::seed::seed_said;
use crate::spelling::spells;
use std::alloc::Global;

/// Tells whether the words say this mode, and this value of its option if there is one, and nothing
/// else.
fn confirm(
    alloc: Global,
    words: &[&str],
    mode: &str,
    name: &str,
    value: Option<&str>,
) -> Result<(), WordsFault>
    ensures spelt { OnOk result
        (Spells (map (λ w. w.now) words.now) mode.now name.now (option_copied value.entry)) }
    ensures language { result ≡ Err WordsFault.Language
        → ¬ Spells (map (λ w. w.now) words.now) mode.now name.now (option_copied value.entry) }
{
    // It isn't proved that the parser takes no other words, so they are compared with all that
    // they can be.
    match spells(alloc, words, mode, name, value) {
        Ok(true) => Ok(()),
        Ok(false) => Err(WordsFault::Language),
        Err(_) => Err(WordsFault::NoMemory),
    }
}

/// The form that the words say with this mode; the parser found this value of `--print`.
fn read_form(
    alloc: Global,
    words: &[&str],
    mode: &str,
    print: Option<&str>,
) -> Result<Form, WordsFault>
    ensures means { IfOk result (SaysForm (option_copied print.entry)) }
    ensures spelt { OnOk result
        (Spells (map (λ w. w.now) words.now) mode.now (codes "--print")
        (option_copied print.entry)) }
    ensures language { result ≡ Err WordsFault.Language
        → (form : Form) → SaysForm (option_copied print.entry) form
        → ¬ Spells (map (λ w. w.now) words.now) mode.now (codes "--print")
        (option_copied print.entry) }
{
    let Some(form) = form_said(print) else {
        return Err(WordsFault::Language);
    };
    confirm(alloc, words, mode, "--print", print)?;
    Ok(form)
}

/// The seed that the words say with this mode; the parser found this value of `--seed`.
fn read_seed(
    alloc: Global,
    words: &[&str],
    mode: &str,
    seed: Option<&str>,
) -> Result<u32, WordsFault>
    ensures means { IfOk result (SaysSeed (option_copied seed.entry)) }
    ensures spelt { OnOk result
        (Spells (map (λ w. w.now) words.now) mode.now (codes "--seed")
        (option_copied seed.entry)) }
    ensures language { result ≡ Err WordsFault.Language
        → (n : ℕ) → SaysSeed (option_copied seed.entry) n
        → ¬ Spells (map (λ w. w.now) words.now) mode.now (codes "--seed")
        (option_copied seed.entry) }
{
    let Some(number) = seed_said(seed) else {
        return Err(WordsFault::Language);
    };
    confirm(alloc, words, mode, "--seed", seed)?;
    Ok(number)
}

/// Reads the words of the command, those after the program's name, as the crate's page says:
/// `replay` or `run` with `--print FORM`, or `bulk` with `--seed N`. `Language` comes exactly if the
/// words give no order; `NoMemory` may come in place of any answer.
pub fn read_words(alloc: Global, words: &[&str]) -> Result<Order, WordsFault>
    ensures gives { IfOk result (Gives (map (λ w. w.now) words.now)) }
    ensures language { result ≡ Err WordsFault.Language
        → (o : Order) → ¬ Gives (map (λ w. w.now) words.now) o }
{
    let command = command(alloc).map_err(|_| WordsFault::NoMemory)?;
    let found = find(command, words)?;
    let Some(mode) = found.mode else {
        return Err(WordsFault::Language);
    };
    match mode {
        "replay" => Ok(Order::Replay(read_form(alloc, words, mode, found.print)?)),
        "run" => Ok(Order::Run(read_form(alloc, words, mode, found.print)?)),
        "bulk" => Ok(Order::Bulk(read_seed(alloc, words, mode, found.seed)?)),
        _ => Err(WordsFault::Language),
    }
}

/// Words give at most one order.
pub fn words_give_one_order()
    ensures { (words : List Text) (a b : Order) → Gives words a → Gives words b → a ≡ b }
{}
