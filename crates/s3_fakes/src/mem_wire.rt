//! A wire to a service in memory.

ghost use Rattle.std.specs.Prelude.{◌≡◌, ◌<◌, ◌≤◌, [], Some, IfSome, length, map, false, true};

use crate::mem_table::{Coming, SharedTable};
use outside_memory::{TalkLog, TalkRecord, WireNote};
use s3_model::OutOfMemory;
use s3_outside::{Failed, Wire, count_fault};
use service_answers::whole_length;
use std::alloc::Global;
use std::mem;
use std::sync::Wait;

/// A wire to a service in memory, which other wires may share. A request is served once its last byte was sent, and
/// behind its answer comes the end of the connection. A wire that finds no memory counts a fault.
#[derive(Drop)]
pub struct MemWire<R: Wait> {
    runtime: R,
    table: SharedTable,
    number: u32,
    moment: u64,
    log: TalkLog,
    is_alive: bool,
    opened: u32,
    faults: u64,
    request: Vec<u8>,
    answer: Option<Coming>,
    place: usize,
    ghost before_year_10000: { moment < 253402300800 },
}

impl<R: Wait> MemWire<R> {
    ghost use Rattle.std.specs.Option.{option_map};
    ghost use Rattle.s3_model.specs.Counts.{Rose};
    ghost use Rattle.outside_memory.specs.TalkLog.{talk_of, note_of};
    ghost use Rattle.s3_outside.specs.Wire.{last_talk, fails, opens, count_opening};

    /// A wire to that service, with an empty log. `moment` is the time that it tells, in seconds since 1970, before the
    /// year 10,000.
    pub fn make(alloc: Global, runtime: R, table: SharedTable, moment: u64) -> MemWire<R>
        requires { moment < 253402300800 }
        ensures seen { ⟦<MemWire<R> as Wire>⟧.seen result ≡ Some (record { talks = []; notes = [] }) }
        ensures alive { ⟦<MemWire<R> as Wire>⟧.alive result ≡ Some false }
        ensures opened { ⟦<MemWire<R> as Wire>⟧.opened result ≡ Some 0 }
        ensures faults { ⟦<MemWire<R> as Wire>⟧.faults result ≡ 0 }
    {
        let number = table.lock(&runtime).new_wire();
        MemWire {
            runtime,
            table,
            number,
            moment,
            log: TalkLog::make(alloc),
            is_alive: false,
            opened: 0,
            faults: 0,
            request: Vec::new(alloc),
            answer: None,
            place: 0,
        }
    }

    /// The talks so far, in order.
    pub fn talks(&self) -> &[TalkRecord]
        ensures { IfSome (⟦<MemWire<R> as Wire>⟧.seen self.now) (λ log. log.talks ≡ map talk_of result.now) }
    {
        self.log.talks()
    }

    /// The notes so far, in order.
    pub fn notes(&self) -> &[WireNote]
        ensures { IfSome (⟦<MemWire<R> as Wire>⟧.seen self.now) (λ log. log.notes ≡ map note_of result.now) }
    {
        self.log.notes()
    }

    /// Whether the connection is kept for the next talk.
    pub fn is_alive(&self) -> bool
        ensures { IfSome (⟦<MemWire<R> as Wire>⟧.alive self.now) (λ alive. alive ≡ result) }
    {
        self.is_alive
    }

    /// How many connections were opened: one for each talk that began and found none kept for its host and port. The
    /// count stops at 2^32 - 1.
    pub fn opened(&self) -> u32
        ensures { IfSome (⟦<MemWire<R> as Wire>⟧.opened self.now) (λ opened. opened ≡ result) }
    {
        self.opened
    }

    /// How often a call failed.
    pub fn faults(&self) -> u64
        ensures { result ≡ ⟦<MemWire<R> as Wire>⟧.faults self.now }
    {
        self.faults
    }

    // Whether a talk with that service opens a connection, which it does not where the last one is kept for it.
    fn opens(&self, host: &str, port: u16) -> bool
        ensures { IfSome self.now.log (λ log. result ≡ opens host.now port true self.now.is_alive log.talks) }
    {
        !(self.is_alive && self.log.is_last_service(host, port))
    }

    // Counts the connection of a talk that opens one.
    fn count_opening(&mut self, host: &str, port: u16)
        ensures log { self.new.log ≡ self.old.log }
        ensures alive { self.new.is_alive ≡ self.old.is_alive }
        ensures faults { self.new.faults ≡ self.old.faults }
        ensures opened { IfSome self.old.log (λ log.
            self.new.opened ≡ count_opening (opens host.now port true self.old.is_alive log.talks) self.old.opened) }
    {
        if self.opens(host, port) {
            self.opened = self.opened.saturating_add(1);
        }
    }

    pub(crate) fn fail(&mut self) -> Failed
        ensures log { self.new.log ≡ option_map (last_talk fails) self.old.log }
        ensures alive { self.new.is_alive ≡ false }
        ensures opened { self.new.opened ≡ self.old.opened }
        ensures counted { Rose self.old.faults self.new.faults }
        ensures later { self.old.faults ≤ self.new.faults }
    {
        let failed = count_fault(&mut self.faults);
        self.log.fail();
        self.is_alive = false;
        failed
    }

    // Copies what comes at once of the present answer to the front of a place, and answers how many bytes these are.
    fn copy_rest(&self, into: &mut [u8]) -> usize
        ensures bound { result ≤ length into.new }
        ensures length { length into.new ≡ length into.old }
    {
        let Some(coming) = &self.answer else {
            return 0;
        };
        let rest = coming.bytes.get(self.place..).unwrap_or(&[]);
        let count = into.len().min(coming.most).min(rest.len());
        into[..count].copy_from_slice(&rest[..count]);
        count
    }

    // Forgets the talk before.
    fn forget(&mut self)
        ensures log { self.new.log ≡ self.old.log }
        ensures alive { self.new.is_alive ≡ self.old.is_alive }
        ensures opened { self.new.opened ≡ self.old.opened }
        ensures faults { self.new.faults ≡ self.old.faults }
    {
        self.place = 0;
        self.request.clear();
        self.answer = None;
    }

    // Whether the request is whole.
    fn is_whole(&self) -> bool {
        match whole_length(&self.request) {
            Some(length) => length <= self.request.len(),
            None => false,
        }
    }

    // What the service answers to the request.
    fn serve(&self) -> Result<Coming, OutOfMemory> {
        self.table
            .lock(&self.runtime)
            .answer(self.number, &self.request)
    }

    // Hands bytes to the service, which answers once the request is whole.
    fn hand_over(&mut self, bytes: &[u8]) -> Result<(), OutOfMemory>
        ensures log { self.new.log ≡ self.old.log }
        ensures alive { self.new.is_alive ≡ self.old.is_alive }
        ensures opened { self.new.opened ≡ self.old.opened }
        ensures faults { self.new.faults ≡ self.old.faults }
    {
        self.request.extend_from_slice(bytes)?;
        if self.answer.is_none() && self.is_whole() {
            let coming = self.serve()?;
            mem::drop(self.answer.replace(coming));
        }
        Ok(())
    }

    /// The request of the present talk, once it is whole.
    pub(crate) fn request(&self) -> Option<&[u8]> {
        if self.answer.is_some() {
            Some(self.request.as_slice())
        } else {
            None
        }
    }

    pub(crate) fn runtime(&self) -> &R {
        &self.runtime
    }

    /// Whether another wire sent a request that begins with this text.
    pub(crate) fn came_beside(&self, beginning: &str) -> bool {
        self.table
            .lock(&self.runtime)
            .came_beside(beginning, self.number)
    }

    /// From now on the service notes requests that begin with this text.
    pub(crate) fn watch(&self, beginning: &str) -> Result<(), OutOfMemory> {
        self.table.lock(&self.runtime).watch(beginning)
    }
}

impl<R: Wait> Wire for MemWire<R> {
    ghost use Rattle.std.specs.Option.{option_map};

    ghost seen = { λ w. w.log };

    ghost alive = { λ w. option_map (λ _. w.is_alive) w.log };

    ghost opened = { λ w. option_map (λ _. w.opened) w.log };

    ghost faults = { λ w. w.faults };

    fn begin(&mut self, host: &str, port: u16) -> Result<(), Failed> {
        self.forget();
        self.count_opening(host, port);
        if self.log.begin(host, port, true).is_err() {
            count_fault(&mut self.faults);
        }
        Ok(())
    }

    fn send(&mut self, bytes: &[u8]) -> Result<usize, Failed> {
        if self.hand_over(bytes).is_err() || self.log.sent(bytes).is_err() {
            return Err(self.fail());
        }
        Ok(bytes.len())
    }

    fn take(&mut self, into: &mut [u8]) -> Result<usize, Failed> {
        let count = self.copy_rest(into);
        if count == 0 && !into.is_empty() {
            self.log.close();
            return Ok(0);
        }
        if self.log.got(&into[..count]).is_err() {
            return Err(self.fail());
        }
        self.place = self.place.saturating_add(count);
        Ok(count)
    }

    fn finish(&mut self, keep: bool) {
        self.is_alive = keep && self.log.went_well();
    }

    fn moment(&mut self) -> u64 {
        if self.log.note(WireNote::Moment(self.moment)).is_err() {
            count_fault(&mut self.faults);
        }
        self.moment
    }

    fn pause(&mut self, seconds: u32) {
        if self.log.note(WireNote::Pause(seconds)).is_err() {
            count_fault(&mut self.faults);
        }
    }
}
