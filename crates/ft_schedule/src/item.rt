//! An item of a schedule's text.

ghost use Rattle.std.specs.Prelude.{◌≡◌, map, option_map, IfOk};
ghost use Rattle.script_text.specs.Words.{all_read};
ghost use Rattle.ft_schedule.specs.Items.{cpu_of, who_of, item_of};

use ft_base::{CpuNo, Who};
use script_text::{all_read, number};
use std::alloc::{AllocError, Global};

/// An item as it is written.
#[derive(Clone, Copy)]
pub struct SchedItem {
    /// Whose turn it is. It may be a CPU that doesn't exist.
    pub who: Who,
    /// How often: any number of up to 10 digits. A turn's count is from 1 to 4,294,967,295.
    pub count: u64,
}

/// A CPU, which is one digit.
fn read_cpu(word: &str) -> Option<Who>
    ensures { result ≡ cpu_of word.now }
{
    match word.as_bytes() {
        [digit] => {
            if *digit >= b'0' && *digit <= b'7' {
                Some(Who::Cpu(CpuNo((*digit - b'0') as u32)))
            } else {
                None
            }
        }
        _ => None,
    }
}

/// Whose turn a word says.
fn read_who(word: &str) -> Option<Who>
    ensures { result ≡ who_of word.now }
{
    match word {
        "k" => Some(Who::Control),
        "all" => Some(Who::All),
        _ => read_cpu(word),
    }
}

/// The item that a word writes, if it has one of the forms.
fn read_item(word: &str) -> Option<SchedItem>
    ensures { result ≡ item_of word.now }
{
    match word.split_once('*') {
        None => Some(SchedItem {
            who: read_who(word)?,
            count: 1,
        }),
        Some((who, count)) => Some(SchedItem {
            who: read_who(who)?,
            count: number(count)?,
        }),
    }
}

/// The items that the words write: `k`, a digit from `0` to `7` for that CPU, or `all`, each with or
/// without `*COUNT` after it. `Ok(None)` says that a word has none of these forms.
pub fn read_items(alloc: Global, words: &[&str]) -> Result<Option<Vec<SchedItem>>, AllocError>
    ensures { IfOk result (λ r. option_map (λ v. v.items) r ≡ all_read item_of (map (λ w. w.now) words.now)) }
{
    all_read(alloc, words, read_item)
}
