//! A map as a list of pairs in byte order of its keys, each key once.
ghost use Rattle.std.specs.Prelude.{◌≡◌, ◌↔◌, ◌<◌, [], length, slice_get, IfErr, IfOk, IsSome, IsTrue, OnOk, OnErr};
ghost use Rattle.std.specs.Option.{option_copied};
ghost use Rattle.lf_sorted.specs.Entries.{Ascends, put_entry, text_cmp, value_at};
ghost use Rattle.lf_sorted.specs.Place.{IsAt, IsGapFor};

use lf_base::{Memory, Text, TryCopy};
use std::alloc::Global;
use std::cmp::Ordering;
use std::marker::Model;

/// A key and its value.
#[derive(Debug, Drop)]
pub struct Entry<T> {
    pub key: Text,
    pub value: T,
}

/// A map that contracts see as the list of its entries, in byte order of their keys and without repeats.
#[derive(Debug, Drop)]
pub struct MapOf<T> {
    entries: Vec<Entry<T>>,
}

impl<T> Model for MapOf<T> {
    ghost use Rattle.std.specs.Prelude.{List};
    ghost use Rattle.std.specs.Coded.{coded_list};
    ghost use Rattle.lf_sorted.specs.declared.map.Entry.{Entry};
    ghost use Rattle.lf_sorted.specs.Entries.{entry_code, Ascends};

    ghost Value = { List (Entry T) };

    ghost coded = { coded_list (entry_code T.code) };

    ghost view = { λ it. it.entries.items };

    ghost invariant = { λ it. Ascends it.entries.items };
}

impl<T> MapOf<T> {
    /// The empty map. It keeps the allocator for its growth.
    pub fn new(alloc: Global) -> MapOf<T>
        ensures { result ≡ [] }
    {
        MapOf {
            entries: Vec::new(alloc),
        }
    }

    /// The map of these entries.
    pub fn from_vec(entries: Vec<Entry<T>>) -> MapOf<T>
        requires { Ascends entries.items }
        ensures { result ≡ entries.items }
    {
        MapOf { entries }
    }

    /// The entries.
    pub fn as_slice(&self) -> &[Entry<T>]
        ensures entries { result.now ≡ self.now }
        ensures order { Ascends self.now }
    {
        self.entries.as_slice()
    }

    /// How many entries there are.
    pub fn len(&self) -> u64
        ensures { result ≡ length self.now }
    {
        self.entries.len() as u64
    }

    /// Whether there is no entry.
    pub fn is_empty(&self) -> bool
        ensures { IsTrue result ↔ (self.now ≡ []) }
    {
        self.entries.is_empty()
    }

    /// The entry at a place, counted from 0.
    pub fn at(&self, place: u64) -> Option<&Entry<T>>
        ensures item { option_copied result ≡ slice_get self.now place }
        ensures within { IsSome result ↔ (place < length self.now) }
    {
        self.entries.get(place as usize)
    }

    /// The value at a key.
    pub fn get(&self, key: &str) -> Option<&T>
        ensures { option_copied result ≡ value_at key.now self.now }
    {
        match place_of(self.entries.as_slice(), key) {
            Ok(place) => Some(&self.entries[place].value),
            Err(_) => None,
        }
    }
}

impl<T: Drop> MapOf<T> {
    /// Puts a value at a key, in the place of an older one. On `Memory` the map is as it was, and key and value are dropped.
    pub fn put(&mut self, key: Text, value: T) -> Result<(), Memory>
        ensures ok { OnOk result (self.new ≡ put_entry key value self.old) }
        ensures err { OnErr result (self.new ≡ self.old) }
    {
        match place_of(self.entries.as_slice(), key.as_str()) {
            Ok(place) => {
                self.entries[place] = Entry { key, value };
                Ok(())
            }
            Err(place) => {
                self.entries.insert(place, Entry { key, value })?;
                Ok(())
            }
        }
    }
}

impl<T: TryCopy> TryCopy for Entry<T> {
    fn copy(&self, alloc: Global) -> Result<Entry<T>, Memory> {
        Ok(Entry {
            key: self.key.copy(alloc)?,
            value: self.value.copy(alloc)?,
        })
    }
}

impl<T: TryCopy + Drop> TryCopy for MapOf<T> {
    fn copy(&self, alloc: Global) -> Result<MapOf<T>, Memory> {
        let mut copied = Vec::new(alloc);
        for entry in self.entries.iter() {
            copied.push(entry.copy(alloc)?)?;
        }
        Ok(MapOf { entries: copied })
    }
}

// Where the key is, or where it would go.
fn place_of<T>(entries: &[Entry<T>], key: &str) -> Result<usize, usize>
    requires { Ascends entries.now }
    ensures found { IfOk result (IsAt entries.now key.now) }
    ensures absent { IfErr result (IsGapFor entries.now key.now) }
{
    entries.binary_search_by(|entry| order_beside(entry, key))
}

// How the entry's key stands to a key.
fn order_beside<T>(entry: &Entry<T>, key: &str) -> Ordering
    ensures { result ≡ text_cmp entry.now.key key.now }
{
    entry.key.as_str().cmp(key)
}
