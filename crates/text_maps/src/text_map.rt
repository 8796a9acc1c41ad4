//! Maps from texts.

ghost use Rattle.std.specs.Prelude.{◌≡◌, IfNone, IfOk, OnErr, OnOk, OnSome, length, string_bytes};
ghost use Rattle.std.specs.Option.{is_some, option_copied};
ghost use Rattle.std.specs.List.{filter};
ghost use Rattle.std.specs.FinMap.{empty, entries, get, insert, keys, remove};
ghost use Rattle.text_maps.specs.TextMap.{is_from, text_entries, text_map};

use s3_model::{OutOfMemory, Text, Texts};
use std::alloc::Global;
use std::collections::BTreeMap;
use std::collections::btree_map::Range;
use std::marker::Model;
use std::mem;

/// A map from texts, in byte order. Contracts see the finite map.
#[derive(Drop)]
pub struct TextMap<V> {
    inner: BTreeMap<String, V>,
}

impl<V> Model for TextMap<V> {
    ghost use Rattle.std.specs.Coded.{coded_ℕ, coded_list};
    ghost use Rattle.std.specs.FinMap.{code};
    ghost use Rattle.s3_model.specs.Maps.{MapOf};
    ghost use Rattle.text_maps.specs.TextMap.{text_map};

    ghost Value = { MapOf V };

    ghost coded = { code (coded_list coded_ℕ) V.code };

    ghost view = { λ m. text_map m.inner.entries };
}

impl<V: Drop> TextMap<V> {
    /// An empty map, which takes no memory.
    pub fn make(alloc: Global) -> Self
        ensures { result ≡ empty }
    {
        TextMap {
            inner: BTreeMap::new(alloc),
        }
    }

    pub fn get(&self, key: &str) -> Option<&V>
        ensures { option_copied result ≡ get self.now key.now }
    {
        self.inner.get(key)
    }

    /// Whether there is a value at a key.
    pub fn has(&self, key: &str) -> bool
        ensures { result ≡ is_some (get self.now key.now) }
    {
        self.get(key).is_some()
    }

    /// Puts a value at a key, in the place of one that is there.
    pub fn insert(&mut self, alloc: Global, key: &str, value: V) -> Result<(), OutOfMemory>
        ensures put { OnOk result (self.new ≡ insert self.old key.now value) }
        ensures same { OnErr result (self.new ≡ self.old) }
    {
        let Ok(owned) = String::from_str(alloc, key) else {
            return Err(OutOfMemory);
        };
        match self.inner.insert(owned, value) {
            Ok(_) => Ok(()),
            Err(_) => Err(OutOfMemory),
        }
    }

    /// Puts a value in the place of the one at a key, without memory, and gives this back. None where there is none.
    pub fn replace(&mut self, key: &str, value: V) -> Option<V>
        ensures old { result ≡ get self.old key.now }
        ensures put { OnSome result (self.new ≡ insert self.old key.now value) }
        ensures same { IfNone result (self.new ≡ self.old) }
    {
        let Some(place) = self.inner.get_mut(key) else {
            return None;
        };
        Some(mem::replace(place, value))
    }

    /// Takes out the value at a key.
    pub fn remove(&mut self, key: &str) -> Option<V>
        ensures taken { result ≡ get self.old key.now }
        ensures removed { self.new ≡ remove self.old key.now }
    {
        self.inner.remove(key)
    }

    /// The tree of the entries, in byte order.
    pub fn tree(&self) -> &BTreeMap<String, V>
        ensures { text_map result.now.entries ≡ self.now }
    {
        &self.inner
    }

    /// The entries whose keys are not before a text, in byte order. The first of them is looked up.
    pub fn range_from(&self, start: &String) -> Range<'_, String, V>
        ensures { text_entries result ≡ filter (λ e. is_from (string_bytes start.now) e.0) (entries self.now) }
    {
        self.inner.range(start..)
    }

    /// How many keys there are.
    pub fn len(&self) -> usize
        ensures { result ≡ length (keys self.now) }
    {
        length_of(&self.inner)
    }

    /// The keys, copied, in byte order.
    pub fn texts(&self, alloc: Global) -> Result<Texts, OutOfMemory>
        ensures { IfOk result (λ texts. texts.items ≡ keys self.now) }
    {
        let mut texts = Texts::make(alloc);
        for key in self.inner.keys() {
            let text = Text::of(alloc, key.as_str())?;
            texts.reserve(1)?;
            texts.push(text);
        }
        Ok(texts)
    }
}

#[tactic(auto, using(crate::proofs::TextMaps::length_of_keys))]
fn length_of<V>(map: &BTreeMap<String, V>) -> usize
    ensures { result ≡ length (keys (text_map map.now.entries)) }
{
    map.len()
}
