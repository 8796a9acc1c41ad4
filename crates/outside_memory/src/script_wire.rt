//! A wire in memory that plays listed answers.

ghost use Rattle.std.specs.Prelude.{◌≡◌, ◌<◌, ◌≤◌, [], Some, IfSome, map, false};

use crate::talk_log::{TalkLog, TalkRecord, WireNote};
use s3_outside::{Failed, Wire, count_fault};
use std::alloc::Global;

/// The calls of a wire that may fail.
#[derive(Clone, Copy, PartialEq, Eq)]
pub enum WireCall {
    Begin,
    Send,
    Take,
}

/// A wire in memory that plays what is listed. The nth talk gets the nth of `answers`, and then the end of the
/// connection. The calls of `failing` fail; each kind of call is counted from 0 over the wire's life.
#[derive(Drop)]
pub struct ScriptWire {
    answers: Vec<Vec<u8>>,
    failing: Vec<(WireCall, usize)>,
    most: usize,
    moment: u64,
    log: TalkLog,
    is_alive: bool,
    opened: u32,
    begins: usize,
    sends: usize,
    takes: usize,
    place: usize,
    faults: u64,
    ghost some: { 1 ≤ most },
    ghost before_year_10000: { moment < 253402300800 },
}

impl ScriptWire {
    ghost use Rattle.std.specs.Option.{option_map};
    ghost use Rattle.s3_model.specs.Counts.{Rose};
    ghost use Rattle.outside_memory.specs.TalkLog.{talk_of, note_of};
    ghost use Rattle.s3_outside.specs.Wire.{last_talk, fails, opens, count_opening};

    /// A wire with an empty log. `moment` is in seconds since 1970, before the year 10,000.
    pub fn make(
        alloc: Global,
        answers: Vec<Vec<u8>>,
        failing: Vec<(WireCall, usize)>,
        moment: u64,
    ) -> ScriptWire
        requires { moment < 253402300800 }
        ensures seen { ⟦<ScriptWire as Wire>⟧.seen result ≡ Some (record { talks = []; notes = [] }) }
        ensures alive { ⟦<ScriptWire as Wire>⟧.alive result ≡ Some false }
        ensures opened { ⟦<ScriptWire as Wire>⟧.opened result ≡ Some 0 }
        ensures faults { ⟦<ScriptWire as Wire>⟧.faults result ≡ 0 }
    {
        ScriptWire {
            answers,
            failing,
            most: usize::MAX,
            moment,
            log: TalkLog::make(alloc),
            is_alive: false,
            opened: 0,
            begins: 0,
            sends: 0,
            takes: 0,
            place: 0,
            faults: 0,
        }
    }

    /// No `send` and no `take` moves more than so many bytes.
    pub fn move_at_most(&mut self, most: usize)
        requires { 1 ≤ most }
        ensures seen { ⟦<ScriptWire as Wire>⟧.seen self.new ≡ ⟦<ScriptWire as Wire>⟧.seen self.old }
        ensures alive { ⟦<ScriptWire as Wire>⟧.alive self.new ≡ ⟦<ScriptWire as Wire>⟧.alive self.old }
        ensures opened { ⟦<ScriptWire as Wire>⟧.opened self.new ≡ ⟦<ScriptWire as Wire>⟧.opened self.old }
        ensures faults { ⟦<ScriptWire as Wire>⟧.faults self.new ≡ ⟦<ScriptWire as Wire>⟧.faults self.old }
    {
        self.most = most;
    }

    /// The talks so far, in order.
    pub fn talks(&self) -> &[TalkRecord]
        ensures { IfSome (⟦<ScriptWire as Wire>⟧.seen self.now) (λ log. log.talks ≡ map talk_of result.now) }
    {
        self.log.talks()
    }

    /// The notes so far, in order.
    pub fn notes(&self) -> &[WireNote]
        ensures { IfSome (⟦<ScriptWire as Wire>⟧.seen self.now) (λ log. log.notes ≡ map note_of result.now) }
    {
        self.log.notes()
    }

    /// Whether the connection is kept for the next talk.
    pub fn is_alive(&self) -> bool
        ensures { IfSome (⟦<ScriptWire as Wire>⟧.alive self.now) (λ alive. alive ≡ result) }
    {
        self.is_alive
    }

    /// How many connections were opened: one for each talk that began and found none kept for its host and port. The
    /// count stops at 2^32 - 1.
    pub fn opened(&self) -> u32
        ensures { IfSome (⟦<ScriptWire as Wire>⟧.opened self.now) (λ opened. opened ≡ result) }
    {
        self.opened
    }

    // Counts a connection that was opened, which is none where the last one is kept for that service.
    fn count_opening(&mut self, begun: bool, host: &str, port: u16)
        ensures log { self.new.log ≡ self.old.log }
        ensures alive { self.new.is_alive ≡ self.old.is_alive }
        ensures faults { self.new.faults ≡ self.old.faults }
        ensures opened { IfSome self.old.log (λ log.
            self.new.opened ≡ count_opening (opens host.now port begun self.old.is_alive log.talks) self.old.opened) }
    {
        if begun && !(self.is_alive && self.log.is_last_service(host, port)) {
            self.opened = self.opened.saturating_add(1);
        }
    }

    // Whether that call is listed to fail.
    fn is_failing(&self, call: WireCall, number: usize) -> bool {
        self.failing.contains(&(call, number))
    }

    // What is left of the present talk's answer.
    fn rest(&self) -> &[u8] {
        let Some(talk) = self.begins.checked_sub(1) else {
            return &[];
        };
        match self.answers.get(talk) {
            Some(answer) => answer.get(self.place..).unwrap_or(&[]),
            None => &[],
        }
    }

    fn fail(&mut self) -> Failed
        ensures log { self.new.log ≡ option_map (last_talk fails) self.old.log }
        ensures alive { self.new.is_alive ≡ false }
        ensures opened { self.new.opened ≡ self.old.opened }
        ensures counted { Rose self.old.faults self.new.faults }
        ensures later { self.old.faults ≤ self.new.faults }
    {
        self.log.fail();
        self.is_alive = false;
        count_fault(&mut self.faults)
    }
}

impl Wire for ScriptWire {
    ghost use Rattle.std.specs.Option.{option_map};

    ghost seen = { λ w. w.log };

    ghost alive = { λ w. option_map (λ _. w.is_alive) w.log };

    ghost opened = { λ w. option_map (λ _. w.opened) w.log };

    ghost faults = { λ w. w.faults };

    fn begin(&mut self, host: &str, port: u16) -> Result<(), Failed> {
        let begun = !self.is_failing(WireCall::Begin, self.begins);
        self.begins = self.begins.saturating_add(1);
        self.place = 0;
        self.count_opening(begun, host, port);
        self.is_alive = begun && self.is_alive;
        if self.log.begin(host, port, begun).is_err() {
            count_fault(&mut self.faults);
        }
        if begun {
            Ok(())
        } else {
            Err(count_fault(&mut self.faults))
        }
    }

    fn send(&mut self, bytes: &[u8]) -> Result<usize, Failed> {
        let is_failing = self.is_failing(WireCall::Send, self.sends);
        self.sends = self.sends.saturating_add(1);
        let count = bytes.len().min(self.most);
        if is_failing || self.log.sent(&bytes[..count]).is_err() {
            return Err(self.fail());
        }
        Ok(count)
    }

    fn take(&mut self, into: &mut [u8]) -> Result<usize, Failed> {
        let is_failing = self.is_failing(WireCall::Take, self.takes);
        self.takes = self.takes.saturating_add(1);
        let rest = self.rest();
        let count = into.len().min(self.most).min(rest.len());
        into[..count].copy_from_slice(&rest[..count]);
        if is_failing {
            return Err(self.fail());
        }
        if count == 0 && !into.is_empty() {
            self.log.close();
            return Ok(0);
        }
        if self.log.got(&into[..count]).is_err() {
            return Err(self.fail());
        }
        self.place = self.place.saturating_add(count);
        Ok(count)
    }

    fn finish(&mut self, keep: bool) {
        self.is_alive = keep && self.log.went_well();
    }

    fn moment(&mut self) -> u64 {
        if self.log.note(WireNote::Moment(self.moment)).is_err() {
            count_fault(&mut self.faults);
        }
        self.moment
    }

    fn pause(&mut self, seconds: u32) {
        if self.log.note(WireNote::Pause(seconds)).is_err() {
            count_fault(&mut self.faults);
        }
    }
}
