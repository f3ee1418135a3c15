//! The words of a line, read as an item. They are read leniently: what the place is and whether there
//! are further words is left to the caller, who writes the item that was read.

ghost use Rattle.std.specs.Prelude.{◌≡◌};
ghost use Rattle.log_reader.specs.Found.{lookups};
ghost use Rattle.log_reader.specs.Reading.{call_in, caller_in, ran_in, answer_in, call_item, words_item, item_in};

use crate::numbers::Numbers;
use crate::words::{cut, read_context, read_number, read_reason};
use ft_base::{Answer, CallNo, Item, Ran};

/// The call that a word names: the pid of its task, a dot and its number.
#[tactic(auto, unfolding(crate::specs::Reading::call_in))]
fn read_call(numbers: &Numbers, word: &str) -> Option<CallNo>
    ensures { result ≡ call_in (lookups numbers.now) word.now }
{
    let (pid, n) = cut(word, '.');
    Some(CallNo {
        task: numbers.task(read_number(pid)?)?,
        n: read_number(n)?,
    })
}

/// The enclosing call that a word names, or `-` at the outermost level.
#[tactic(auto, unfolding(crate::specs::Reading::caller_in))]
fn read_caller(numbers: &Numbers, word: &str) -> Option<Option<CallNo>>
    ensures { result ≡ caller_in (lookups numbers.now) word.now }
{
    match word {
        "-" => Some(None),
        _ => Some(Some(read_call(numbers, word)?)),
    }
}

/// What was fetched, by a word and the name of a user that may go with it.
#[tactic(auto, unfolding(crate::specs::Reading::ran_in))]
fn read_ran(numbers: &Numbers, word: &str, user: &str) -> Option<Ran>
    ensures { result ≡ ran_in (lookups numbers.now) word.now user.now }
{
    match word {
        "nop" => Some(Ran::Nop),
        "list" => Some(Ran::List),
        "own" => Some(Ran::Own(numbers.user(user)?)),
        _ => None,
    }
}

/// The answer of a command, by a word and the names of a function and a user that may go with it.
#[tactic(auto, unfolding(crate::specs::Reading::answer_in))]
fn read_answer(numbers: &Numbers, word: &str, function: &str, user: &str) -> Option<Answer>
    ensures { result ≡ answer_in (lookups numbers.now) word.now function.now user.now }
{
    match word {
        "ok" => Some(Answer::Accepted),
        "already" => Some(Answer::Already),
        "not-there" => Some(Answer::NotThere),
        "invalid" => Some(Answer::Invalid),
        "no-match" => Some(Answer::NoMatch),
        "busy" => Some(Answer::Busy {
            func: numbers.function(function)?,
            holder: numbers.user(user)?,
        }),
        _ => None,
    }
}

/// The item of a call, by its kind and the words after the call.
#[tactic(auto, unfolding(crate::specs::Reading::call_item))]
fn read_call_item(
    numbers: &Numbers,
    kind: &str,
    call: CallNo,
    second: &str,
    third: &str,
    fourth: &str,
) -> Option<Item>
    ensures { result ≡ call_item (lookups numbers.now) kind.now call second.now third.now
        fourth.now }
{
    match kind {
        "enter" => {
            let ctx = read_context(second)?;
            let func = numbers.function(third)?;
            let caller = read_caller(numbers, fourth)?;
            Some(Item::Enter {
                call,
                ctx,
                func,
                caller,
            })
        }
        "back" => {
            let user = numbers.user(second)?;
            Some(Item::Back { call, user })
        }
        "back-end" => {
            let user = numbers.user(second)?;
            Some(Item::BackEnd { call, user })
        }
        "refuse" => {
            let user = numbers.user(second)?;
            let reason = read_reason(third)?;
            Some(Item::Refuse { call, user, reason })
        }
        "miss" => {
            let user = numbers.user(second)?;
            Some(Item::Miss { call, user })
        }
        "body" => {
            let func = numbers.function(second)?;
            let ran = read_ran(numbers, third, fourth)?;
            Some(Item::Body { call, func, ran })
        }
        "leave" => Some(Item::Leave { call }),
        "exit" => {
            let user = numbers.user(second)?;
            let entry = read_number(third)?;
            Some(Item::Exit { call, user, entry })
        }
        "exit-end" => {
            let user = numbers.user(second)?;
            Some(Item::ExitEnd { call, user })
        }
        "ret" => {
            let to = read_caller(numbers, second)?;
            Some(Item::Ret { call, to })
        }
        _ => None,
    }
}

/// The item of a kind, by the words after its kind.
#[tactic(auto, unfolding(crate::specs::Reading::words_item))]
fn read_words(
    numbers: &Numbers,
    kind: &str,
    first: &str,
    second: &str,
    third: &str,
    fourth: &str,
) -> Option<Item>
    ensures { result ≡ words_item (lookups numbers.now) kind.now first.now second.now third.now
        fourth.now }
{
    match kind {
        "begin" => Some(Item::Begin {
            k: read_number(first)?,
        }),
        "return" => Some(Item::Return {
            k: read_number(first)?,
            answer: read_answer(numbers, second, third, fourth)?,
        }),
        _ => read_call_item(
            numbers,
            kind,
            read_call(numbers, first)?,
            second,
            third,
            fourth,
        ),
    }
}

/// The item of a line, whose words come between single spaces, after its place. All that comes after
/// the fifth word is taken as one.
#[tactic(auto, unfolding(crate::specs::Reading::item_in))]
pub(crate) fn read_item(numbers: &Numbers, line: &str) -> Option<Item>
    ensures { result ≡ item_in (lookups numbers.now) line.now }
{
    let (_place, rest) = cut(line, ' ');
    let (kind, rest) = cut(rest, ' ');
    let (first, rest) = cut(rest, ' ');
    let (second, rest) = cut(rest, ' ');
    let (third, fourth) = cut(rest, ' ');
    read_words(numbers, kind, first, second, third, fourth)
}
