//! A table of keys.

ghost use Rattle.std.specs.Prelude.{◌≡◌, [], length, option_map, slice_get, IfOk, OnErr};
ghost use Rattle.state_search.specs.Entries.{AreApart, IsAdded};

use ft_base::NoMemory;
use indexmap::IndexMap;
use std::alloc::Global;
use std::marker::Model;

/// Keys in the order in which they were added, each once and with a value. Contracts see the list of both.
#[derive(Drop)]
pub struct KeyTable<V: Drop> {
    map: IndexMap<Vec<u64>, V>,
}

impl<V: Drop> Model for KeyTable<V> {
    ghost use Rattle.std.specs.Prelude.{List, ℕ};
    ghost use Rattle.state_search.specs.Entries.{entries_of};

    ghost Value = { List (List ℕ × V) };

    ghost view = { λ t. entries_of t.map.entries };
}

impl<V: Drop> KeyTable<V> {
    /// No keys.
    pub(crate) fn new(alloc: Global) -> KeyTable<V>
        ensures { result ≡ [] }
    {
        KeyTable {
            map: IndexMap::new(alloc),
        }
    }

    /// How many keys there are. No key stands at two places.
    pub fn len(&self) -> usize
        ensures count { result ≡ length self.now }
        ensures apart { AreApart self.now }
    {
        self.map.len()
    }

    /// The key at this place, and its value; none beyond the last.
    pub fn entry(&self, at: usize) -> Option<(&[u64], &V)>
        ensures { option_map (λ e. (e.0.now, e.1.now)) result ≡ slice_get self.now at }
    {
        match self.map.get_index(at) {
            Some((key, value)) => Some((key.as_slice(), value)),
            None => None,
        }
    }

    /// Adds a key with its value, if it isn't there; whether it is new.
    pub(crate) fn add(&mut self, key: Vec<u64>, value: V) -> Result<bool, NoMemory>
        ensures added { IfOk result (λ new. IsAdded new self.old key.items value self.new) }
        ensures kept { OnErr result (self.new ≡ self.old) }
    {
        if self.map.contains_key(&key) {
            return Ok(false);
        }
        match self.map.insert(key, value) {
            Ok(_) => Ok(true),
            Err(_) => Err(NoMemory),
        }
    }
}
