//! What the words order: `random SEED TRIES`, or `search SWITCHES TRIES`.

use script_text::number;

/// What is to be tried.
#[derive(Clone, Copy)]
pub(crate) enum Order {
    /// So many schedules, drawn by a generator that begins with this seed.
    Random { seed: u64, tries: u64 },
    /// All schedules in which the turn is taken from an actor that could go on at most so often; so many
    /// of them at most.
    Search { switches: u32, tries: u64 },
}

/// The order that three words give. `None` if they aren't in the language: numbers have 1 to 10 digits.
fn order_of(mode: &str, first: &str, second: &str) -> Option<Order> {
    let first = number(first)?;
    let tries = number(second)?;
    match mode {
        "random" => Some(Order::Random { seed: first, tries }),
        "search" => Some(Order::Search {
            switches: u32::try_from(first).unwrap_or(u32::MAX),
            tries,
        }),
        _ => None,
    }
}

/// The order that words give. `None` if they aren't in the language.
pub(crate) fn read_order(words: &[String]) -> Option<Order> {
    match words {
        [mode, first, second] => order_of(mode.as_str(), first.as_str(), second.as_str()),
        _ => None,
    }
}
