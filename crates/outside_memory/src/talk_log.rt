//! The log of a wire in memory.

ghost use Rattle.std.specs.Prelude.{◌≡◌, [], ◌∷◌, ◌++◌, map, OnOk, OnErr, IfSome, IsTrue, is_ok};
ghost use Rattle.std.specs.Option.{option_map};
ghost use Rattle.s3_outside.specs.Wire.{
  begun,
  noted,
  change_last,
  last_talk,
  last_went_well,
  is_last_service,
  sends,
  gets,
  fails,
  closes,
};

use s3_model::{OutOfMemory, Text};
use std::alloc::Global;
use std::marker::Model;

/// How a talk has ended so far.
#[derive(Clone, Copy, Debug)]
pub enum TalkEnding {
    /// A call of the wire failed in it.
    Failed,
    /// The other side closed the connection.
    Closed,
    Finished,
}

impl TalkEnding {
    ghost use Rattle.s3_outside.specs.Wire.{after_close, went_well as goes_well};
    ghost use Rattle.outside_memory.specs.TalkLog.{ending_of};

    fn closed(self) -> TalkEnding
        ensures { ending_of result ≡ after_close (ending_of self) }
    {
        match self {
            TalkEnding::Failed => TalkEnding::Failed,
            TalkEnding::Closed | TalkEnding::Finished => TalkEnding::Closed,
        }
    }

    fn went_well(self) -> bool
        ensures { result ≡ goes_well (ending_of self) }
    {
        match self {
            TalkEnding::Failed => false,
            TalkEnding::Closed | TalkEnding::Finished => true,
        }
    }
}

/// One request and what came back.
#[derive(Drop)]
pub struct TalkRecord {
    pub host: Text,
    pub port: u16,
    pub sent: Vec<u8>,
    pub got: Vec<u8>,
    pub ending: TalkEnding,
}

impl TalkRecord {
    ghost use Rattle.s3_outside.specs.Wire.{leads_to};

    fn leads_to(&self, host: &str, port: u16) -> bool
        ensures { result ≡ leads_to host.now port (talk_of self.now) }
    {
        self.host.as_str() == host && self.port == port
    }
}

/// What a wire noted, in order. Numbers are seconds.
#[derive(Clone, Copy)]
pub enum WireNote {
    Moment(u64),
    Pause(u32),
    Began,
}

/// The log of a wire in memory. Contracts see None once its memory ran out.
#[derive(Drop)]
pub struct TalkLog {
    alloc: Global,
    talks: Vec<TalkRecord>,
    notes: Vec<WireNote>,
    is_whole: bool,
}

impl Model for TalkLog {
    ghost use Rattle.std.specs.Prelude.{Option};
    ghost use Rattle.s3_model.specs.Talks.{WireLog};
    ghost use Rattle.outside_memory.specs.TalkLog.{seen_log};

    ghost Value = { Option WireLog };

    ghost view = { λ l. seen_log l.is_whole l.talks.items l.notes.items };
}

ghost use Rattle.outside_memory.specs.TalkLog.{talk_of, note_of, ending_of};

fn add_talk(
    alloc: Global,
    talks: &mut Vec<TalkRecord>,
    host: &str,
    port: u16,
    ending: TalkEnding,
) -> Result<(), OutOfMemory>
    ensures { OnOk result (map talk_of talks.new.items ≡ map talk_of talks.old.items ++
        record { host = host.now; port = port; sent = []; got = []; ending = ending_of ending } ∷ []) }
{
    let host = Text::of(alloc, host)?;
    let talk = TalkRecord {
        host,
        port,
        sent: Vec::new(alloc),
        got: Vec::new(alloc),
        ending,
    };
    talks.push(talk)?;
    Ok(())
}

fn add_sent(talks: &mut [TalkRecord], bytes: &[u8]) -> Result<(), OutOfMemory>
    ensures added { OnOk result (map talk_of talks.new ≡ change_last (sends bytes.now) (map talk_of talks.old)) }
    ensures same { OnErr result (map talk_of talks.new ≡ map talk_of talks.old) }
{
    let Some(last) = talks.len().checked_sub(1) else {
        return Ok(());
    };
    match talks[last].sent.extend_from_slice(bytes) {
        Ok(()) => Ok(()),
        Err(_) => Err(OutOfMemory),
    }
}

fn add_got(talks: &mut [TalkRecord], bytes: &[u8]) -> Result<(), OutOfMemory>
    ensures added { OnOk result (map talk_of talks.new ≡ change_last (gets bytes.now) (map talk_of talks.old)) }
    ensures same { OnErr result (map talk_of talks.new ≡ map talk_of talks.old) }
{
    let Some(last) = talks.len().checked_sub(1) else {
        return Ok(());
    };
    match talks[last].got.extend_from_slice(bytes) {
        Ok(()) => Ok(()),
        Err(_) => Err(OutOfMemory),
    }
}

fn fail_last(talks: &mut [TalkRecord])
    ensures { map talk_of talks.new ≡ change_last fails (map talk_of talks.old) }
{
    if let Some(last) = talks.len().checked_sub(1) {
        talks[last].ending = TalkEnding::Failed;
    }
}

fn close_last(talks: &mut [TalkRecord])
    ensures { map talk_of talks.new ≡ change_last closes (map talk_of talks.old) }
{
    if let Some(last) = talks.len().checked_sub(1) {
        let talk = &mut talks[last];
        talk.ending = talk.ending.closed();
    }
}

fn last_went_well(talks: &[TalkRecord]) -> bool
    ensures { result ≡ last_went_well (map talk_of talks.now) }
{
    match talks {
        [.., last] => last.ending.went_well(),
        [] => false,
    }
}

fn is_last_service(talks: &[TalkRecord], host: &str, port: u16) -> bool
    ensures { result ≡ is_last_service host.now port (map talk_of talks.now) }
{
    match talks {
        [.., last] => last.leads_to(host, port),
        [] => false,
    }
}

impl TalkLog {
    /// An empty log, which takes no memory.
    pub fn make(alloc: Global) -> TalkLog
        ensures { result ≡ Some (record { talks = []; notes = [] }) }
    {
        TalkLog {
            alloc,
            talks: Vec::new(alloc),
            notes: Vec::new(alloc),
            is_whole: true,
        }
    }

    /// A talk begins. Without memory for it nothing of the log is seen from then on.
    pub fn begin(&mut self, host: &str, port: u16, opened: bool) -> Result<(), OutOfMemory>
        ensures added { OnOk result (self.new ≡ option_map (begun host.now port opened) self.old) }
        ensures stopped { OnErr result (self.new ≡ None) }
    {
        let ending = if opened {
            TalkEnding::Finished
        } else {
            TalkEnding::Failed
        };
        self.note(WireNote::Began)?;
        if !self.is_whole {
            return Ok(());
        }
        let added = add_talk(self.alloc, &mut self.talks, host, port, ending);
        self.is_whole = added.is_ok();
        added
    }

    /// A note is added. Without memory for it nothing of the log is seen from then on.
    pub fn note(&mut self, note: WireNote) -> Result<(), OutOfMemory>
        ensures added { OnOk result (self.new ≡ option_map (noted (note_of note)) self.old) }
        ensures stopped { OnErr result (self.new ≡ None) }
    {
        if !self.is_whole {
            return Ok(());
        }
        match self.notes.push(note) {
            Ok(()) => Ok(()),
            Err(_) => {
                self.is_whole = false;
                Err(OutOfMemory)
            }
        }
    }

    /// Bytes were sent in the last talk. Without memory for them the log stays.
    pub fn sent(&mut self, bytes: &[u8]) -> Result<(), OutOfMemory>
        ensures added { OnOk result (self.new ≡ option_map (last_talk (sends bytes.now)) self.old) }
        ensures same { OnErr result (self.new ≡ self.old) }
    {
        add_sent(&mut self.talks, bytes)
    }

    /// Bytes were got in the last talk. Without memory for them the log stays.
    pub fn got(&mut self, bytes: &[u8]) -> Result<(), OutOfMemory>
        ensures added { OnOk result (self.new ≡ option_map (last_talk (gets bytes.now)) self.old) }
        ensures same { OnErr result (self.new ≡ self.old) }
    {
        add_got(&mut self.talks, bytes)
    }

    /// A call failed in the last talk.
    pub fn fail(&mut self)
        ensures { self.new ≡ option_map (last_talk fails) self.old }
    {
        fail_last(&mut self.talks);
    }

    /// The other side closed the connection of the last talk.
    pub fn close(&mut self)
        ensures { self.new ≡ option_map (last_talk closes) self.old }
    {
        close_last(&mut self.talks);
    }

    /// Whether there is a talk, and no call failed in the last.
    pub fn went_well(&self) -> bool
        ensures { IfSome self.now (λ log. result ≡ last_went_well log.talks) }
    {
        last_went_well(&self.talks)
    }

    /// Whether there is a talk, and the last went to that host and port.
    pub fn is_last_service(&self, host: &str, port: u16) -> bool
        ensures { IfSome self.now (λ log. result ≡ is_last_service host.now port log.talks) }
    {
        is_last_service(&self.talks, host, port)
    }

    /// The talks so far.
    pub fn talks(&self) -> &[TalkRecord]
        ensures { IfSome self.now (λ log. log.talks ≡ map talk_of result.now) }
    {
        &self.talks
    }

    /// The notes so far.
    pub fn notes(&self) -> &[WireNote]
        ensures { IfSome self.now (λ log. log.notes ≡ map note_of result.now) }
    {
        &self.notes
    }
}
