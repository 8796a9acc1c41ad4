//! What a script does to requests and their answers.

ghost use Rattle.std.specs.Prelude.{◌≡◌, OnOk};
ghost use Rattle.std.specs.List.{fold};
ghost use Rattle.s3_fakes.specs.Fates.{IsToBeServed, by_turn};

use s3_model::{OutOfMemory, Text};
use service_answers::Form;
use std::alloc::Global;
use std::collections::BTreeMap;
use std::mem;

/// How an answer ends.
#[derive(Clone, Copy)]
pub enum Ending {
    Heard,
    /// The request is not served, and nothing comes.
    LostBefore,
    /// The request is served, and nothing comes.
    LostAfter,
    /// Nothing comes, and the request is served before the request that comes so many requests later.
    Late(u64),
    /// The request is served, and only so many bytes come.
    Cut(usize),
}

/// What a script does to a request.
#[derive(Drop)]
pub enum Turn {
    /// It is not served, and the answer has this status and this document.
    Refuse { status: u16, document: Text },
    End(Ending),
    Come(Form),
}

/// A refusal by a script.
#[derive(Drop)]
pub(crate) struct Refused {
    pub status: u16,
    pub document: Text,
}

/// What becomes of one request.
#[derive(Drop)]
pub(crate) struct Fate {
    pub refused: Option<Refused>,
    pub ending: Ending,
    pub form: Form,
}

impl Fate {
    /// The request is served, and its answer comes.
    pub(crate) fn plain() -> Fate
        ensures { IsToBeServed result }
    {
        Fate {
            refused: None,
            ending: Ending::Heard,
            form: Form::Sized,
        }
    }

    fn take_turn(&mut self, turn: &Turn) -> Result<(), OutOfMemory>
        ensures { OnOk result (self.new ≡ by_turn self.old turn.now) }
    {
        match turn {
            Turn::Refuse { status, document } => {
                self.refused = Some(Refused {
                    status: *status,
                    document: document.copy()?,
                });
            }
            Turn::End(ending) => self.ending = *ending,
            Turn::Come(form) => self.form = *form,
        }
        Ok(())
    }

    // Takes turns in their order: of two of a kind the last one counts.
    #[tactic(auto, using(std::proofs::lemmas::List::Sums::fold_more))]
    fn take_turns(&mut self, turns: &[Turn]) -> Result<(), OutOfMemory>
        ensures { OnOk result (self.new ≡ fold by_turn self.old turns.now) }
    {
        for turn in turns {
            self.take_turn(turn)?;
        }
        Ok(())
    }
}

/// Adds a value behind the others of that number.
pub(crate) fn push_at<T: Drop>(
    lists: &mut BTreeMap<u64, Vec<T>>,
    number: u64,
    value: T,
) -> Result<(), OutOfMemory> {
    lists.entry(number)?.or_default().push(value)?;
    Ok(())
}

/// The requests that begin with one text: how many came, from which wires, and what is done to them.
#[derive(Drop)]
struct Beginning {
    count: u64,
    first_wire: Option<u32>,
    is_shared: bool,
    each: Vec<Turn>,
    nth: BTreeMap<u64, Vec<Turn>>,
}

impl Beginning {
    fn make(alloc: Global) -> Beginning {
        Beginning {
            count: 0,
            first_wire: None,
            is_shared: false,
            each: Vec::new(alloc),
            nth: BTreeMap::new(alloc),
        }
    }

    fn add(&mut self, number: Option<u64>, turn: Turn) -> Result<(), OutOfMemory> {
        match number {
            None => Ok(self.each.push(turn)?),
            Some(number) => push_at(&mut self.nth, number, turn),
        }
    }

    fn note(&mut self, wire: u32) {
        self.count = self.count.saturating_add(1);
        match self.first_wire {
            None => self.first_wire = Some(wire),
            Some(first) => self.is_shared = self.is_shared || first != wire,
        }
    }

    fn decide(&self, fate: &mut Fate) -> Result<(), OutOfMemory> {
        fate.take_turns(&self.each)?;
        match self.nth.get(&self.count) {
            Some(turns) => fate.take_turns(turns),
            None => Ok(()),
        }
    }

    fn came_beside(&self, wire: u32) -> bool {
        match self.first_wire {
            None => false,
            Some(first) => self.is_shared || first != wire,
        }
    }
}

/// What is done to requests, by the texts that they begin with.
#[derive(Drop)]
pub(crate) struct Script {
    beginnings: BTreeMap<Vec<u8>, Beginning>,
    alloc: Global,
}

impl Script {
    pub(crate) fn make(alloc: Global) -> Script {
        Script {
            beginnings: BTreeMap::new(alloc),
            alloc,
        }
    }

    /// From now on notes the requests that begin with a text.
    pub(crate) fn watch(&mut self, text: &[u8]) -> Result<(), OutOfMemory> {
        if self.beginnings.get(text).is_none() {
            let key = text.to_vec(self.alloc)?;
            let before = self.beginnings.insert(key, Beginning::make(self.alloc))?;
            mem::drop(before);
        }
        Ok(())
    }

    /// A turn for the nth request that begins with a text, counted from 1, or for each.
    pub(crate) fn add(
        &mut self,
        text: &[u8],
        number: Option<u64>,
        turn: Turn,
    ) -> Result<(), OutOfMemory> {
        self.watch(text)?;
        match self.beginnings.get_mut(text) {
            Some(beginning) => beginning.add(number, turn),
            None => Ok(()),
        }
    }

    /// Takes the turns for a request with this first line, from that wire.
    pub(crate) fn meet(
        &mut self,
        line: &[u8],
        wire: u32,
        fate: &mut Fate,
    ) -> Result<(), OutOfMemory> {
        for end in 0..line.len() {
            self.meet_front(&line[..end], wire, fate)?;
        }
        self.meet_front(line, wire, fate)
    }

    fn meet_front(&mut self, front: &[u8], wire: u32, fate: &mut Fate) -> Result<(), OutOfMemory> {
        match self.beginnings.get_mut(front) {
            Some(beginning) => {
                beginning.note(wire);
                beginning.decide(fate)
            }
            None => Ok(()),
        }
    }

    /// Whether another wire sent a request that begins with this text, since it is watched.
    pub(crate) fn came_beside(&self, text: &[u8], wire: u32) -> bool {
        match self.beginnings.get(text) {
            Some(beginning) => beginning.came_beside(wire),
            None => false,
        }
    }
}
