//! The entity tags of parts.

ghost use Rattle.std.specs.Prelude.{◌≡◌, ◌<◌, ◌≤◌, ◌+◌, ◌-◌, ◌++◌, ◌∷◌, [], ◌^◌, IfOk, None, length, replicate, set};
ghost use Rattle.kept_jobs.specs.Tags.{HasPart, present};

use s3_model::{OutOfMemory, Text, Texts, nones};
use std::alloc::Global;
use std::marker::Model;
use std::mem;

/// A place for the entity tag of each part, by the numbers of the parts from the first on.
#[derive(Drop)]
pub struct PartTags {
    first: u32,
    tags: Vec<Option<Text>>,
    /// Room for all of them.
    texts: Texts,
}

impl Model for PartTags {
    ghost use Rattle.kept_jobs.specs.Tags.{HasRoom, SeenTags};

    ghost Value = { SeenTags };

    ghost view = { λ t. record { first = t.first; tags = t.tags.items } };

    ghost invariant = { λ t. HasRoom t.tags.items t.texts };
}

/// Gives away the tag that stands at a place, if there is one.
fn give(tag: &mut Option<Text>, texts: &mut Texts)
    requires { 0 < texts.old.spare }
    ensures items { texts.new.items ≡ texts.old.items ++ present (tag.old ∷ []) }
    ensures spare { texts.old.spare ≤ texts.new.spare + 1 }
{
    if let Some(tag) = tag.take() {
        texts.push(tag);
    }
}

/// Gives away those that stand at the places, in order.
fn give_all(tags: &mut [Option<Text>], texts: &mut Texts)
    requires { length tags.old ≤ texts.old.spare }
    ensures { texts.new.items ≡ texts.old.items ++ present tags.old }
{
    for index in 0..tags.len() {
        give(&mut tags[index], texts);
    }
}

impl PartTags {
    /// No part came. It takes all the memory that the places need.
    pub fn make(alloc: Global, first: u32, count: u32) -> Result<PartTags, OutOfMemory>
        ensures first { IfOk result (λ tags. tags.first ≡ first) }
        ensures none { IfOk result (λ tags. tags.tags ≡ replicate count None) }
    {
        let tags = nones(alloc, count as usize)?;
        let mut texts = Texts::make(alloc);
        texts.reserve(count as usize)?;
        Ok(PartTags { first, tags, texts })
    }

    /// The part of that number came with this entity tag, or with none.
    pub fn put(&mut self, number: u32, tag: Option<Text>)
        requires { HasPart self.old number }
        ensures first { self.new.first ≡ self.old.first }
        ensures tags { self.new.tags ≡ set self.old.tags (number - self.old.first) tag }
    {
        let index = (number - self.first) as usize;
        let _before = mem::replace(&mut self.tags[index], tag);
    }

    /// Those that came, in order of number.
    pub fn into_texts(self) -> Texts
        ensures { result.items ≡ present self.tags }
    {
        let PartTags {
            mut tags,
            mut texts,
            ..
        } = self;
        give_all(&mut tags, &mut texts);
        texts
    }
}
