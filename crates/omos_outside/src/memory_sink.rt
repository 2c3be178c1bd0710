//! A sink in memory that takes small pieces, and fails where it is told to.

ghost use Rattle.std.specs.Prelude.{◌≡◌, ◌^◌, ◌<◌, ◌≤◌, [], Some, length, IfOk};
ghost use Rattle.std.specs.Io.KnownBytes.{Appends};
ghost use Rattle.omos_outside.specs.Faults.{Rose};
ghost use Rattle.omos_outside.specs.Took.{accepted, FitsPiece};
ghost use Rattle.omos_outside.specs.Scripted.{ScriptedSink, AnswersWrite, after_write};

use crate::calls::is_listed;
use crate::flag::Flag;
use crate::sink::{Sink, Took};
use omos_base::{NoMemory, Row};
use std::alloc::Global;
use std::marker::Model;

/// A sink in memory. It takes at most `step` bytes a call, and fails at the listed calls, counted
/// from 1, and where its room is used up.
#[derive(Debug, Drop)]
pub struct MemorySink {
    items: Vec<u8>,
    room: u32,
    step: u32,
    fails: Row<u32>,
    calls: u64,
    faults: u64,
    raises: Option<Raised>,
}

/// A flag that is raised once so many bytes are held.
#[derive(Debug, Drop)]
struct Raised {
    at: u32,
    flag: Flag,
}

impl Model for MemorySink {
    ghost use Rattle.std.specs.Prelude.{◌<◌, ◌≤◌, vec_len, vec_capacity};
    ghost use Rattle.omos_outside.specs.Scripted.{ScriptedSink};

    ghost Value = { ScriptedSink };

    ghost view = { λ s. record {
      held = s.items.items;
      room = s.room;
      step = s.step;
      fails = s.fails;
      calls = s.calls;
      faults = s.faults;
    } };

    ghost invariant = { λ s.
        (vec_len s.items ≤ s.room) × (s.room ≤ vec_capacity s.items) × (0 < s.step) };
}

impl MemorySink {
    /// An empty sink with room for so many bytes, which are taken now.
    pub fn new(alloc: Global, room: u32, step: u32, fails: Row<u32>) -> Result<MemorySink, NoMemory>
        requires { 0 < step }
        ensures { IfOk result (λ sink. sink ≡ record {
          held = [];
          room = room;
          step = step;
          fails = fails;
          calls = 0;
          faults = 0;
        }) }
    {
        let items = Vec::with_capacity(alloc, room as usize)?;
        Ok(MemorySink {
            items,
            room,
            step,
            fails,
            calls: 0,
            faults: 0,
            raises: None,
        })
    }

    /// The same sink, which raises the flag once it holds at least so many bytes.
    pub fn raising(mut self, at: u32, flag: Flag) -> MemorySink
        ensures { result ≡ self }
    {
        self.raises = Some(Raised { at, flag });
        self.raise_flag();
        self
    }

    // Raises the flag, where there is one and enough is held.
    fn raise_flag(&self) {
        if let Some(raised) = &self.raises {
            if raised.at as usize <= self.items.len() {
                raised.flag.raise();
            }
        }
    }

    /// What it holds.
    pub fn bytes(&self) -> &[u8]
        ensures { result.now ≡ self.now.held }
    {
        self.items.as_slice()
    }
}

impl Sink for MemorySink {
    ghost held = { λ s. Some s.held };

    ghost faults = { λ s. s.faults };

    /// Takes as much of the piece as there is room for and as a step has.
    fn write(&mut self, piece: &[u8]) -> Took
        requires { 0 < length piece.now }
        ensures room { FitsPiece result (length piece.now) }
        ensures held { Appends (Some self.old.held) (Some self.new.held)
            (accepted result piece.now) }
        ensures later { self.old.faults ≤ self.new.faults }
        ensures counts { self.new.faults < 2 ^ 64 }
        ensures failed { result ≡ Took.Failed → Rose self.old.faults self.new.faults }

        // The answer and the whole new value.
        ensures answer { AnswersWrite self.old (length piece.now) result }
        ensures after { self.new ≡ after_write self.old piece.now result }
    {
        self.calls = self.calls.saturating_add(1);
        if is_listed(self.fails.as_slice(), self.calls) {
            self.faults = self.faults.saturating_add(1);
            return Took::Failed;
        }
        let left = self.room as usize - self.items.len();
        let count = piece.len().min(left).min(self.step as usize);
        if count == 0 {
            self.faults = self.faults.saturating_add(1);
            return Took::Failed;
        }
        self.items.extend_from_slice(&piece[..count]).unwrap();
        self.raise_flag();
        Took::Bytes(count)
    }
}
