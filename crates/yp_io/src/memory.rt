//! Sources and sinks in memory: with calls that fail, for tests of what lies above, and with none.
//!
//! Contracts see a `MemSource` as a `Supply` and a `MemSink` as a `Store` (`specs/Memory.antt`), and a
//! `SafeSource` as the list of the bytes that are left.
ghost use Rattle.std.specs.Prelude.{◌≡◌, ℕ, ◌<◌, ◌≤◌, [], Some, IfOk, IfSome, length, drop, min};
ghost use Rattle.yp_io.specs.Moves.{GivesAtMost, GivesFirst, GotCause, TakesAtMost, WritesFirst, PutCause};
ghost use Rattle.yp_io.specs.Memory.{given, got, read_answer, after_read, write_answer, after_write};

use crate::sink::{Put, Sink};
use crate::source::{Got, Source};
use std::alloc::Global;
use std::marker::Model;
use yp_base::memory::NoMemory;

/// Bytes in memory, at most a few at each call, with calls that fail.
#[derive(Drop)]
pub struct MemSource {
    kept: Vec<u8>,
    at: usize,
    most: usize,
    failing: Vec<u64>,
    calls: u64,
    failed: u64,
}

impl Model for MemSource {
    ghost use Rattle.std.specs.Prelude.{◌≤◌, ◌<◌, ◌^◌, length, drop};
    ghost use Rattle.yp_io.specs.Memory.{Supply};

    ghost Value = { Supply };

    ghost view = { λ s. record {
      bytes = drop s.at s.kept.items;
      most = s.most;
      failing = s.failing.items;
      calls = s.calls;
      failed = s.failed;
    } };

    ghost invariant = { λ s. (s.at ≤ length s.kept.items) × (1 ≤ s.most) };
}

impl MemSource {
    /// A source of these bytes. A call gives as many as are left, as fit and as `most` allows; the
    /// calls whose numbers, counted from 1, stand in `failing` fail and take nothing.
    pub fn new(bytes: Vec<u8>, most: usize, failing: Vec<u64>) -> MemSource
        requires { 1 ≤ most }
        ensures state { result ≡ record {
          bytes = bytes.items;
          most = most;
          failing = failing.items;
          calls = 0;
          failed = 0;
        } }
        ensures left { ⟦<MemSource as Source>⟧.left result ≡ Some bytes.items }
        ensures faults { ⟦<MemSource as Source>⟧.faults result ≡ 0 }
    {
        MemSource {
            kept: bytes,
            at: 0,
            most,
            failing,
            calls: 0,
            failed: 0,
        }
    }
}

impl Source for MemSource {
    ghost left = { λ s. Some s.bytes };

    ghost faults = { λ s. s.failed };

    fn read(&mut self, into: &mut [u8]) -> Got
        requires { 0 < length into.old }
        ensures room { GivesAtMost result (length into.new) }
        ensures bytes { IfSome (⟦<MemSource as Source>⟧.left self.old)
            (λ before. GivesFirst before (⟦<MemSource as Source>⟧.left self.new) result into.new) }
        ensures cause { GotCause (⟦<MemSource as Source>⟧.faults self.old)
            (⟦<MemSource as Source>⟧.faults self.new) result }
        ensures answer { result ≡ read_answer self.old (length into.new) }
        ensures state { self.new ≡ after_read self.old (length into.new) }
    {
        self.calls = self.calls.saturating_add(1);
        if self.failing.contains(&self.calls) {
            self.failed = self.failed.saturating_add(1);
            return Got::Failed;
        }
        let rest = self.kept.len() - self.at;
        let count = rest.min(into.len()).min(self.most);
        if count == 0 {
            return Got::End;
        }
        let (front, _) = into.split_at_mut(count);
        front.copy_from_slice(&self.kept[self.at..self.at + count]);
        self.at += count;
        Got::Bytes(count)
    }
}

/// A sink in memory with room for some bytes, with calls that fail. Writing takes no memory.
#[derive(Drop)]
pub struct MemSink {
    kept: Vec<u8>,
    at: usize,
    most: usize,
    failing: Vec<u64>,
    calls: u64,
    failed: u64,
}

impl Model for MemSink {
    ghost use Rattle.std.specs.Prelude.{◌≤◌, ◌-◌, length, take};
    ghost use Rattle.yp_io.specs.Memory.{Store};

    ghost Value = { Store };

    ghost view = { λ s. record {
      bytes = take s.at s.kept.items;
      room = length s.kept.items - s.at;
      most = s.most;
      failing = s.failing.items;
      calls = s.calls;
      failed = s.failed;
    } };

    ghost invariant = { λ s. (s.at ≤ length s.kept.items) × (1 ≤ s.most) };
}

impl MemSink {
    /// A sink with room for so many bytes, whose memory it takes. A call takes as many bytes as there
    /// are, as there is room for and as `most` allows; the calls whose numbers, counted from 1, stand
    /// in `failing` fail and write nothing, and so does a call with a byte to write and no room left.
    pub fn with_room(
        alloc: Global,
        room: usize,
        most: usize,
        failing: Vec<u64>,
    ) -> Result<MemSink, NoMemory>
        requires { 1 ≤ most }
        ensures state { IfOk result (λ sink. sink ≡ record {
          bytes = [];
          room = room;
          most = most;
          failing = failing.items;
          calls = 0;
          failed = 0;
        }) }
        ensures written { IfOk result (λ sink. ⟦<MemSink as Sink>⟧.written sink ≡ Some []) }
        ensures faults { IfOk result (λ sink. ⟦<MemSink as Sink>⟧.faults sink ≡ 0) }
    {
        Ok(MemSink {
            kept: vec![in alloc; 0u8; room]?,
            at: 0,
            most,
            failing,
            calls: 0,
            failed: 0,
        })
    }

    /// What was written.
    pub fn bytes(&self) -> &[u8]
        ensures kept { result.now ≡ self.now.bytes }
        ensures written { ⟦<MemSink as Sink>⟧.written self.now ≡ Some result.now }
    {
        &self.kept[..self.at]
    }
}

impl Sink for MemSink {
    ghost written = { λ s. Some s.bytes };

    ghost faults = { λ s. s.failed };

    fn write(&mut self, piece: &[u8]) -> Put
        ensures room { TakesAtMost result (length piece.now) }
        ensures bytes { IfSome (⟦<MemSink as Sink>⟧.written self.old)
            (λ before. WritesFirst before (⟦<MemSink as Sink>⟧.written self.new) result piece.now) }
        ensures cause { PutCause (⟦<MemSink as Sink>⟧.faults self.old)
            (⟦<MemSink as Sink>⟧.faults self.new) result }
        ensures answer { result ≡ write_answer self.old piece.now }
        ensures state { self.new ≡ after_write self.old piece.now }
    {
        self.calls = self.calls.saturating_add(1);
        let room = self.kept.len() - self.at;
        if self.failing.contains(&self.calls) || room == 0 && !piece.is_empty() {
            self.failed = self.failed.saturating_add(1);
            return Put::Failed;
        }
        let count = room.min(piece.len()).min(self.most);
        self.kept[self.at..self.at + count].copy_from_slice(&piece[..count]);
        self.at += count;
        Put::Took(count)
    }
}

/// Bytes in memory, whose reading never fails.
#[derive(Drop)]
pub struct SafeSource {
    kept: Vec<u8>,
    at: usize,
}

impl Model for SafeSource {
    ghost use Rattle.std.specs.Prelude.{ℕ, ◌≤◌, List, length, drop};

    ghost Value = { List ℕ };

    ghost view = { λ s. drop s.at s.kept.items };

    ghost invariant = { λ s. s.at ≤ length s.kept.items };
}

impl SafeSource {
    /// A source of these bytes. A call gives as many as are left and fit.
    pub fn new(bytes: Vec<u8>) -> SafeSource
        ensures state { result ≡ bytes.items }
        ensures left { ⟦<SafeSource as Source>⟧.left result ≡ Some bytes.items }
    {
        SafeSource { kept: bytes, at: 0 }
    }
}

impl Source for SafeSource {
    ghost left = { λ s. Some s };

    ghost faults = { λ _. 0 };

    fn read(&mut self, into: &mut [u8]) -> Got
        requires { 0 < length into.old }
        ensures room { GivesAtMost result (length into.new) }
        ensures bytes { IfSome (⟦<SafeSource as Source>⟧.left self.old)
            (λ before. GivesFirst before (⟦<SafeSource as Source>⟧.left self.new) result into.new) }
        ensures cause { GotCause (⟦<SafeSource as Source>⟧.faults self.old)
            (⟦<SafeSource as Source>⟧.faults self.new) result }
        ensures answer { result ≡ got (min (length self.old) (length into.new)) }
        ensures state { self.new ≡ drop (min (length self.old) (length into.new)) self.old }
    {
        let rest = self.kept.len() - self.at;
        let count = rest.min(into.len());
        if count == 0 {
            return Got::End;
        }
        let (front, _) = into.split_at_mut(count);
        front.copy_from_slice(&self.kept[self.at..self.at + count]);
        self.at += count;
        Got::Bytes(count)
    }
}

/// A sink that takes every piece whole, keeps no byte, and never fails.
#[derive(Drop)]
pub struct SafeSink;

impl SafeSink {
    /// A sink that tells nothing of what was written.
    pub fn new() -> SafeSink
        ensures written { ⟦<SafeSink as Sink>⟧.written result ≡ None }
    {
        SafeSink
    }
}

impl Sink for SafeSink {
    ghost use Rattle.std.specs.Prelude.{None};

    ghost written = { λ _. None };

    ghost faults = { λ _. 0 };

    fn write(&mut self, piece: &[u8]) -> Put
        ensures room { TakesAtMost result (length piece.now) }
        ensures bytes { IfSome (⟦<SafeSink as Sink>⟧.written self.old)
            (λ before. WritesFirst before (⟦<SafeSink as Sink>⟧.written self.new) result piece.now) }
        ensures cause { PutCause (⟦<SafeSink as Sink>⟧.faults self.old)
            (⟦<SafeSink as Sink>⟧.faults self.new) result }
        ensures answer { result ≡ Put.Took (length piece.now) }
    {
        Put::Took(piece.len())
    }
}
