//! What the word after the program's name orders.

use ft_io::Status;
use std::env;
use std::io::ErrorKind;
use std::rt::Env;

/// What is to be told.
#[derive(Clone, Copy)]
pub(crate) enum Order {
    Facts,
    Items,
    Steps,
}

/// The order that a word gives. `None` if it isn't in the language.
fn order_of(word: &str) -> Option<Order> {
    match word {
        "facts" => Some(Order::Facts),
        "items" => Some(Order::Items),
        "steps" => Some(Order::Steps),
        _ => None,
    }
}

/// The order of the one word after the program's name, or the status that the program ends with.
pub(crate) fn read_order<R: Env + AllocGlobal>(rt: &R) -> Result<Order, Status> {
    let mut words = match env::args(rt) {
        Ok(args) => args.skip(1),
        Err(error) if error.kind() == ErrorKind::OutOfMemory => return Err(Status::NoMemory),
        // An argument that isn't UTF-8 is a word, too.
        Err(_) => return Err(Status::Language),
    };
    let Some(word) = words.next() else {
        return Err(Status::Language);
    };
    if words.next().is_some() {
        return Err(Status::Language);
    }
    order_of(word.as_str()).ok_or(Status::Language)
}
