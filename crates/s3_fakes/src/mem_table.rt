//! An S3 service in memory.

ghost use Rattle.std.specs.Prelude.{◌≡◌, None, IfOk, IsErr, IsSome, OnOk, OnErr, false, true};
ghost use Rattle.std.specs.Option.{option_copied};
ghost use Rattle.std.specs.FinMap.{empty, insert};
ghost use Rattle.s3_service.specs.ServiceState.{object_at};
ghost use Rattle.s3_service.specs.Serves.{Puts};
ghost use Rattle.s3_fakes.specs.Fates.{AreBytesFor, IsToBeServed};
ghost use Rattle.s3_fakes.specs.Holdings.{Follows, IsAnswered};

use crate::script::{Ending, Fate, Refused, Script, Turn, push_at};
use object_table::{MemObject, ObjectTable, TableFault};
use s3_model::{Ask, Limits, OutOfMemory, Text};
use service_answers::{
    Answer, Form, RequestHead, answer_of, ask_of, head_length, not_understood, refusal,
};
use std::alloc::Global;
use std::collections::BTreeMap;
use std::marker::Model;
use std::mem;
use std::sync::{Arc, Mutex};
use table_service::{Manner, serve};

const MICROS_PER_SECOND: u64 = 1_000_000;

/// The most names of a page (Amazon S3 API reference, ListObjectsV2).
const PAGE: usize = 1000;

/// What somebody else does to an object of a bucket that is there.
#[derive(Drop)]
pub enum ForeignWrite {
    Put {
        bucket: Text,
        key: Text,
        bytes: Vec<u8>,
    },
    Remove {
        bucket: Text,
        key: Text,
    },
}

/// The bytes of an answer, of which at most so many come at once.
#[derive(Drop)]
pub struct Coming {
    pub bytes: Vec<u8>,
    pub most: usize,
}

/// An S3 service in memory, which answers requests as bytes. What a script says is done to the nth request that begins
/// with a text. Whoever reads its objects sees what was served so far.
#[derive(Drop)]
pub struct MemTable {
    objects: ObjectTable,
    script: Script,
    foreign: BTreeMap<u64, Vec<ForeignWrite>>,
    late: BTreeMap<u64, Vec<Vec<u8>>>,
    requests: u64,
    wires: u32,
    manner: Manner,
    is_scripted: bool,
    alloc: Global,
}

impl Model for MemTable {
    ghost use Rattle.s3_fakes.specs.Holdings.{Holdings, holdings_code};

    ghost Value = { Holdings };

    ghost coded = { holdings_code };

    ghost view = { λ t. record { limits = t.manner.limits; state = t.objects; is_scripted = t.is_scripted } };
}

/// A service that many wires share.
pub type SharedTable = Arc<Mutex<MemTable>, Global>;

/// Whether a request is a HEAD.
fn is_head(request: &[u8]) -> bool {
    request.starts_with(b"HEAD ")
}

/// The first line of a request.
fn line_of(request: &[u8]) -> &[u8] {
    for (end, byte) in request.iter().enumerate() {
        if *byte == b'\r' {
            return &request[..end];
        }
    }
    request
}

/// The answer of a script.
fn scripted(alloc: Global, refused: &Refused) -> Result<Answer, OutOfMemory> {
    let document = String::from_str(alloc, refused.document.as_str())?;
    Ok(Answer::document(alloc, refused.status, document))
}

/// What is answered where nothing was served.
fn unserved(alloc: Global, fault: TableFault) -> Result<Answer, OutOfMemory>
    ensures { fault ≡ TableFault.Memory → IsErr result }
{
    match fault {
        TableFault::Refused(why) => refusal(alloc, why),
        TableFault::Memory => Err(OutOfMemory),
    }
}

/// The head and the body of a whole request; None where it is none.
fn parts_of(request: &[u8]) -> Option<(RequestHead<'_>, &[u8])> {
    let (head, body) = request.split_at_checked(head_length(request)?)?;
    let head = RequestHead::read(std::str::from_utf8(head).ok()?)?;
    Some((head, body))
}

/// Of the bytes of an answer those that come, as it ends.
fn cut(mut bytes: Vec<u8>, ending: Ending) -> Vec<u8>
    ensures { AreBytesFor ending result.items }
{
    match ending {
        Ending::Heard => bytes,
        Ending::Cut(count) => {
            bytes.truncate(count);
            bytes
        }
        _ => {
            bytes.clear();
            bytes
        }
    }
}

/// The most bytes that come at once in that form.
fn most_at_once(form: Form) -> usize {
    match form {
        Form::Split(most) => most.max(1),
        _ => usize::MAX,
    }
}

impl MemTable {
    /// A service without buckets. `moment` is the time of all that is written, in seconds since 1970.
    pub fn make(alloc: Global, limits: Limits, moment: u64) -> MemTable
        ensures { result ≡ record {
          limits = limits;
          state = record { objects = empty; uploads = empty; ended = empty; tokens = empty };
          is_scripted = false;
        } }
    {
        MemTable {
            objects: ObjectTable::make(alloc),
            script: Script::make(alloc),
            foreign: BTreeMap::new(alloc),
            late: BTreeMap::new(alloc),
            requests: 0,
            wires: 0,
            manner: Manner {
                limits,
                page: PAGE,
                micros: moment.saturating_mul(MICROS_PER_SECOND),
            },
            is_scripted: false,
            alloc,
        }
    }

    /// The service as one that many wires share.
    pub fn share(self) -> Result<SharedTable, OutOfMemory> {
        let alloc = self.alloc;
        match Arc::new(alloc, Mutex::new(self)) {
            Ok(shared) => Ok(shared),
            Err(_) => Err(OutOfMemory),
        }
    }

    /// Adds a bucket without objects.
    pub fn add_bucket(&mut self, bucket: &str) -> Result<(), OutOfMemory>
        ensures added { OnOk result (self.new.state ≡
            record self.old.state { objects = insert self.old.state.objects bucket.now empty }) }
        ensures limits { self.new.limits ≡ self.old.limits }
        ensures scripted { self.new.is_scripted ≡ self.old.is_scripted }
        ensures same { OnErr result (self.new ≡ self.old) }
    {
        self.objects.add_bucket(self.alloc, bucket)
    }

    /// Puts an object into a bucket that is there.
    pub fn put(
        &mut self,
        bucket: &str,
        key: &str,
        bytes: Vec<u8>,
        micros: u64,
    ) -> Result<(), TableFault>
        ensures put { OnOk result (Puts self.old.state bucket.now key.now false bytes.items self.new.state) }
        ensures limits { self.new.limits ≡ self.old.limits }
        ensures scripted { self.new.is_scripted ≡ self.old.is_scripted }
        ensures same { OnErr result (self.new ≡ self.old) }
    {
        self.objects
            .put(self.alloc, bucket, key, bytes, false, micros)
    }

    /// The object there.
    pub fn object(&self, bucket: &str, key: &str) -> Option<&MemObject>
        ensures { option_copied result ≡ object_at self.now.state bucket.now key.now }
    {
        self.objects.object(bucket, key)
    }

    /// Buckets, objects and uploads.
    pub fn objects(&self) -> &ObjectTable
        ensures { result.now ≡ self.now.state }
    {
        &self.objects
    }

    /// The most names of a page, 1 to 1,000.
    pub fn set_page(&mut self, most: usize)
        ensures { self.new ≡ self.old }
    {
        self.manner.page = most.clamp(1, PAGE);
    }

    /// The time of all that is written from now on, in microseconds since 1970.
    pub fn set_time(&mut self, micros: u64)
        ensures { self.new ≡ self.old }
    {
        self.manner.micros = micros;
    }

    /// What is done to the nth request that begins with a text, counted from 1, or to each. The empty text begins every
    /// request.
    pub fn script(
        &mut self,
        beginning: &str,
        number: Option<u64>,
        turn: Turn,
    ) -> Result<(), OutOfMemory>
        ensures { self.new ≡ record self.old { is_scripted = true } }
    {
        self.is_scripted = true;
        self.script.add(beginning.as_bytes(), number, turn)
    }

    /// Somebody else writes before the nth request of all is served, counted from 1.
    pub fn write_before(&mut self, number: u64, write: ForeignWrite) -> Result<(), OutOfMemory>
        ensures { self.new ≡ record self.old { is_scripted = true } }
    {
        self.is_scripted = true;
        push_at(&mut self.foreign, number, write)
    }

    /// How many requests came.
    pub fn requests(&self) -> u64 {
        self.requests
    }

    /// From now on notes from which wires requests come that begin with a text.
    pub(crate) fn watch(&mut self, beginning: &str) -> Result<(), OutOfMemory>
        ensures { self.new ≡ self.old }
    {
        self.script.watch(beginning.as_bytes())
    }

    /// Whether another wire sent a request that begins with a text, since it is watched.
    pub(crate) fn came_beside(&self, beginning: &str, wire: u32) -> bool {
        self.script.came_beside(beginning.as_bytes(), wire)
    }

    /// The number of a new wire, by which the service tells wires apart.
    pub fn new_wire(&mut self) -> u32
        ensures { self.new ≡ self.old }
    {
        self.wires = self.wires.saturating_add(1);
        self.wires
    }

    /// What somebody else does; nothing where the bucket is not there.
    fn write_foreign(&mut self, write: ForeignWrite) -> Result<(), OutOfMemory>
        ensures { Follows self.old self.new }
    {
        let micros = self.manner.micros;
        match write {
            ForeignWrite::Put { bucket, key, bytes } => {
                match self.put(bucket.as_str(), key.as_str(), bytes, micros) {
                    Err(TableFault::Memory) => Err(OutOfMemory),
                    _ => Ok(()),
                }
            }
            ForeignWrite::Remove { bucket, key } => {
                let _ = self
                    .objects
                    .delete(self.alloc, bucket.as_str(), key.as_str());
                Ok(())
            }
        }
    }

    fn write_all_foreign(&mut self, number: u64) -> Result<(), OutOfMemory>
        ensures { Follows self.old self.new }
    {
        let Some(writes) = self.foreign.remove(&number) else {
            return Ok(());
        };
        for write in writes {
            self.write_foreign(write)?;
        }
        Ok(())
    }

    /// Serves the requests that are late until that number.
    fn serve_late(&mut self, number: u64) -> Result<(), OutOfMemory>
        ensures { Follows self.old self.new }
    {
        let Some(requests) = self.late.remove(&number) else {
            return Ok(());
        };
        for request in requests.as_slice() {
            self.serve_bytes(request)?;
        }
        Ok(())
    }

    /// Serves what is asked.
    fn serve_ask(&mut self, ask: &Ask, body: &[u8]) -> Result<Answer, OutOfMemory>
        ensures follows { Follows self.old self.new }
        ensures answered { OnOk result (IsAnswered self.old self.new) }
    {
        let alloc = self.alloc;
        let gained = match serve(alloc, &mut self.objects, &self.manner, ask, body) {
            Ok(gained) => gained,
            Err(fault) => return unserved(alloc, fault),
        };
        let answer = answer_of(alloc, &self.objects, self.manner.micros, ask, &gained);
        mem::drop(gained);
        answer
    }

    /// Serves a whole request.
    #[tactic(auto, using(crate::proofs::Following::misread_ok))]
    fn serve_bytes(&mut self, request: &[u8]) -> Result<Answer, OutOfMemory>
        ensures follows { Follows self.old self.new }
        ensures answered { OnOk result (IsAnswered self.old self.new) }
    {
        let alloc = self.alloc;
        let Some((head, body)) = parts_of(request) else {
            return not_understood(alloc);
        };
        match ask_of(alloc, &head, body)? {
            Some(ask) => {
                let answer = self.serve_ask(&ask, body);
                mem::drop(ask);
                answer
            }
            None => not_understood(alloc),
        }
    }

    // What is answered to a request: by the script where it refuses, and else by the service.
    fn decide(&mut self, fate: &Fate, request: &[u8]) -> Result<Answer, OutOfMemory>
        ensures follows { Follows self.old self.new }
        ensures answered { fate.now.refused ≡ None → OnOk result (IsAnswered self.old self.new) }
        ensures unserved { IsSome fate.now.refused → self.new ≡ self.old }
    {
        match &fate.refused {
            Some(refused) => scripted(self.alloc, refused),
            None => self.serve_bytes(request),
        }
    }

    // What comes for a request, where its answer comes whole.
    fn hear(&mut self, fate: &Fate, request: &[u8]) -> Result<Vec<u8>, OutOfMemory>
        ensures follows { Follows self.old self.new }
        ensures answered { fate.now.refused ≡ None → OnOk result (IsAnswered self.old self.new) }
        ensures unserved { IsSome fate.now.refused → self.new ≡ self.old }
    {
        let answer = self.decide(fate, request)?;
        if is_head(request) {
            answer
                .without_body(self.alloc)
                .to_bytes(self.alloc, fate.form)
        } else {
            answer.to_bytes(self.alloc, fate.form)
        }
    }

    fn put_off(&mut self, request: &[u8], by: u64) -> Result<(), OutOfMemory>
        ensures { self.new ≡ self.old }
    {
        let number = self.requests.saturating_add(by.max(1));
        let kept = request.to_vec(self.alloc)?;
        push_at(&mut self.late, number, kept)
    }

    // What is done before that request: late requests are served, and somebody else writes.
    fn step_in(&mut self, number: u64) -> Result<(), OutOfMemory>
        ensures follows { Follows self.old self.new }
        ensures plain { self.old.is_scripted ≡ false → self.new ≡ self.old }
    {
        if !self.is_scripted {
            return Ok(());
        }
        self.serve_late(number)?;
        self.write_all_foreign(number)
    }

    // What becomes of a request with this first line; it is served and heard where there is no script.
    fn fate_of(&mut self, line: &[u8], wire: u32) -> Result<Fate, OutOfMemory>
        ensures same { self.new ≡ self.old }
        ensures plain { self.old.is_scripted ≡ false → IfOk result (λ fate. IsToBeServed fate) }
    {
        let mut fate = Fate::plain();
        self.script.meet(line, wire, &mut fate)?;
        if self.is_scripted {
            Ok(fate)
        } else {
            Ok(Fate::plain())
        }
    }

    /// The bytes that come for a whole request from that wire. Whatever comes, only requests and writes of somebody
    /// else change what the service holds. Where there is no script, and nobody else writes, the request is answered,
    /// and nothing else happens.
    pub fn answer(&mut self, wire: u32, request: &[u8]) -> Result<Coming, OutOfMemory>
        ensures follows { Follows self.old self.new }
        ensures answered { self.old.is_scripted ≡ false → OnOk result (IsAnswered self.old self.new) }
    {
        self.requests = self.requests.saturating_add(1);
        let number = self.requests;
        self.step_in(number)?;
        let fate = self.fate_of(line_of(request), wire)?;
        let coming = self.answer_as(&fate, request);
        mem::drop(fate);
        coming
    }

    // The bytes that come for a request, as its answer ends.
    fn bytes_for(&mut self, fate: &Fate, request: &[u8]) -> Result<Vec<u8>, OutOfMemory>
        ensures within { IfOk result (λ bytes. AreBytesFor fate.now.ending bytes.items) }
        ensures follows { Follows self.old self.new }
        ensures answered { IsToBeServed fate.now → OnOk result (IsAnswered self.old self.new) }
        ensures unserved { (IsToBeServed fate.now → ⊥) → self.new ≡ self.old }
    {
        match fate.ending {
            Ending::LostBefore => Ok(Vec::new(self.alloc)),
            Ending::Late(by) => {
                self.put_off(request, by)?;
                Ok(Vec::new(self.alloc))
            }
            ending => {
                let bytes = self.hear(fate, request)?;
                Ok(cut(bytes, ending))
            }
        }
    }

    fn answer_as(&mut self, fate: &Fate, request: &[u8]) -> Result<Coming, OutOfMemory>
        ensures within { IfOk result (λ coming. AreBytesFor fate.now.ending coming.bytes.items) }
        ensures follows { Follows self.old self.new }
        ensures answered { IsToBeServed fate.now → OnOk result (IsAnswered self.old self.new) }
        ensures unserved { (IsToBeServed fate.now → ⊥) → self.new ≡ self.old }
    {
        let bytes = self.bytes_for(fate, request)?;
        Ok(Coming {
            bytes,
            most: most_at_once(fate.form),
        })
    }
}
