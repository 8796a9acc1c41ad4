//! A wire that holds an answer back until another wire sent a request.

ghost use Rattle.std.specs.Prelude.{◌≡◌, ◌<◌, ◌≤◌, [], Some, IfOk, IfSome, length, map, false};

use crate::mem_table::SharedTable;
use crate::mem_wire::MemWire;
use outside_memory::{TalkRecord, WireNote};
use s3_model::{OutOfMemory, Text};
use s3_outside::{Failed, Wire};
use std::alloc::Global;
use std::rt::Clock;
use std::sync::Wait;
use std::time::Duration;
use std::{mem, thread};

/// How often a wire looks whether its answer may come.
const TURNS: u32 = 10_000;

/// After the first request that begins with `first`, the wire takes nothing of its answer until another wire of the
/// service sent a request that begins with `second`. An empty text begins every request.
#[derive(Drop)]
pub struct Gate {
    pub first: Text,
    pub second: Text,
}

/// A wire to a service in memory with gates. It looks at a gate 10,000 times, a millisecond apart, and then counts a
/// fault.
#[derive(Drop)]
pub struct GateWire<R: Wait + Clock> {
    wire: MemWire<R>,
    /// Those that no request closed yet.
    gates: Vec<Gate>,
    closed: Option<Gate>,
}

/// The place of the first gate that the request closes.
fn gate_for(gates: &[Gate], request: &[u8]) -> Option<usize>
    ensures { IfSome result (λ place. place < length gates.now) }
{
    for (place, gate) in gates.iter().enumerate() {
        if request.starts_with(gate.first.as_str().as_bytes()) {
            return Some(place);
        }
    }
    None
}

// Has the second request of each gate watched.
fn watch_all<R: Wait>(wire: &MemWire<R>, gates: &[Gate]) -> Result<(), OutOfMemory> {
    for gate in gates {
        wire.watch(gate.second.as_str())?;
    }
    Ok(())
}

impl<R: Wait + Clock + Drop> GateWire<R> {
    ghost use Rattle.outside_memory.specs.TalkLog.{talk_of, note_of};

    /// A wire to that service, with an empty log and these gates. `moment` is the time that it tells, in seconds since
    /// 1970, before the year 10,000.
    pub fn make(
        alloc: Global,
        runtime: R,
        table: SharedTable,
        moment: u64,
        gates: Vec<Gate>,
    ) -> Result<GateWire<R>, OutOfMemory>
        requires { moment < 253402300800 }
        ensures seen { IfOk result (λ wire.
            ⟦<GateWire<R> as Wire>⟧.seen wire ≡ Some (record { talks = []; notes = [] })) }
        ensures faults { IfOk result (λ wire. ⟦<GateWire<R> as Wire>⟧.faults wire ≡ 0) }
    {
        let wire = MemWire::make(alloc, runtime, table, moment);
        match watch_all(&wire, &gates) {
            Ok(()) => Ok(GateWire {
                wire,
                gates,
                closed: None,
            }),
            Err(fault) => {
                mem::drop(gates);
                mem::drop(wire);
                Err(fault)
            }
        }
    }

    /// The talks so far, in order.
    pub fn talks(&self) -> &[TalkRecord]
        ensures { IfSome (⟦<GateWire<R> as Wire>⟧.seen self.now) (λ log. log.talks ≡ map talk_of result.now) }
    {
        self.wire.talks()
    }

    /// The notes so far, in order.
    pub fn notes(&self) -> &[WireNote]
        ensures { IfSome (⟦<GateWire<R> as Wire>⟧.seen self.now) (λ log. log.notes ≡ map note_of result.now) }
    {
        self.wire.notes()
    }

    /// How often a call failed.
    pub fn faults(&self) -> u64
        ensures { result ≡ ⟦<GateWire<R> as Wire>⟧.faults self.now }
    {
        self.wire.faults()
    }

    // Closes the first gate that the present request closes.
    fn close_gate(&mut self)
        ensures { self.new.wire ≡ self.old.wire }
    {
        let Some(request) = self.wire.request() else {
            return;
        };
        if let Some(place) = gate_for(&self.gates, request) {
            let gate = self.gates.remove(place);
            mem::drop(self.closed.replace(gate));
        }
    }

    // Waits until the gate that is closed opens; false where it does not.
    fn wait(&self) -> bool {
        let Some(gate) = &self.closed else {
            return true;
        };
        for _ in 0..TURNS {
            if self.wire.came_beside(gate.second.as_str()) {
                return true;
            }
            let _ = thread::sleep(self.wire.runtime(), Duration::from_millis(1));
        }
        false
    }
}

impl<R: Wait + Clock + Drop> Wire for GateWire<R> {
    ghost seen = { λ w. ⟦<MemWire<R> as Wire>⟧.seen w.wire };

    ghost alive = { λ w. ⟦<MemWire<R> as Wire>⟧.alive w.wire };

    ghost opened = { λ w. ⟦<MemWire<R> as Wire>⟧.opened w.wire };

    ghost faults = { λ w. ⟦<MemWire<R> as Wire>⟧.faults w.wire };

    fn begin(&mut self, host: &str, port: u16) -> Result<(), Failed> {
        mem::drop(self.closed.take());
        self.wire.begin(host, port)
    }

    fn send(&mut self, bytes: &[u8]) -> Result<usize, Failed> {
        let was_whole = self.wire.request().is_some();
        let sent = self.wire.send(bytes);
        if !was_whole {
            self.close_gate();
        }
        sent
    }

    fn take(&mut self, into: &mut [u8]) -> Result<usize, Failed> {
        let is_open = self.wait();
        mem::drop(self.closed.take());
        if !is_open {
            return Err(self.wire.fail());
        }
        self.wire.take(into)
    }

    fn finish(&mut self, keep: bool) {
        self.wire.finish(keep);
    }

    fn moment(&mut self) -> u64 {
        self.wire.moment()
    }

    fn pause(&mut self, seconds: u32) {
        self.wire.pause(seconds);
    }
}
