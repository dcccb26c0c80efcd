//! Streams in memory. Their lists of failing calls count the calls of the object from 1.

ghost use Rattle.std.specs.Prelude.{◌≡◌, ◌+◌, ◌-◌, ◌<◌, ◌≤◌, ◌↔◌, ◌⊎◌, [], ◌++◌, length, take, drop, min, IfOk, IsErr, OnErr};
ghost use Rattle.pkg_names.specs.Streams.{Gave, Rose, Took};
ghost use Rattle.pkg_names.specs.MemoryStreams.{IsListed, source_given, source_failed, sink_given, sink_failed};

use crate::lists::Bytes;
use crate::streams::{Sink, SinkFailed, Source, SourceFailed};
use std::alloc::{AllocError, Global};
use std::marker::Model;

/// A source of given bytes. Contracts see what is left, the calls, and how often it failed.
#[derive(Debug, Drop)]
pub struct MemSource {
    bytes: Bytes,
    place: usize,
    calls: u64,
    failing: Vec<u64>,
    faults: u64,
}

impl Model for MemSource {
    ghost use Rattle.std.specs.Prelude.{◌≤◌, length, drop};
    ghost use Rattle.pkg_names.specs.MemoryStreams.{SourceInMemory};

    ghost Value = { SourceInMemory };

    ghost view = { λ s. record {
      left = drop s.place s.bytes;
      calls = s.calls;
      failing = s.failing.items;
      faults = s.faults;
    } };

    ghost invariant = { λ s. s.place ≤ length s.bytes };
}

impl MemSource {
    /// A source of these bytes, whose listed calls fail.
    pub fn make(bytes: Bytes, failing: Vec<u64>) -> MemSource
        ensures made { result ≡ record { left = bytes; calls = 0; failing = failing.items; faults = 0 } }
    {
        MemSource {
            bytes,
            place: 0,
            calls: 0,
            failing,
            faults: 0,
        }
    }

    /// How often it has failed.
    pub fn faults(&self) -> u64
        ensures faults { result ≡ self.now.faults }
    {
        self.faults
    }
}

impl Source for MemSource {
    ghost use Rattle.std.specs.Prelude.{Some};

    ghost left = { λ s. Some s.left };

    ghost faults = { λ s. s.faults };

    fn take(&mut self, out: &mut [u8]) -> Result<usize, SourceFailed>
        requires { 0 < length out.old }
        ensures within { IfOk result (λ count. count ≤ length out.old) }
        ensures took { IfOk result (λ count. Took (Some self.old.left) out.new count (Some self.new.left)) }
        ensures err { OnErr result (Some self.new.left ≡ Some self.old.left) }
        ensures cause { OnErr result (Rose self.old.faults self.new.faults) }
        ensures faults { self.old.faults ≤ self.new.faults }

        // A listed call fails, and no other.
        ensures listed { IsErr result ↔ IsListed self.old.failing self.old.calls }

        // It gives as many bytes as are left and fit, and touches nothing behind them.
        ensures count { IfOk result (λ count. count ≡ min (length self.old.left) (length out.old)) }
        ensures out { IfOk result (λ count. out.new ≡ take count self.old.left ++ drop count out.old) }
        ensures out_stays { OnErr result (out.new ≡ out.old) }

        // The whole source after the call.
        ensures given { IfOk result (λ count. self.new ≡ source_given self.old count) }
        ensures failed { OnErr result (self.new ≡ source_failed self.old) }
    {
        self.calls = self.calls.saturating_add(1);
        if self.failing.contains(&self.calls) {
            self.faults = self.faults.saturating_add(1);
            return Err(SourceFailed);
        }
        let (_, left) = self.bytes.as_slice().split_at(self.place);
        let count = copy_front(left, out);
        self.place += count;
        Ok(count)
    }
}

// Copies the front of what is left into out, as much as there is and fits.
fn copy_front(left: &[u8], out: &mut [u8]) -> usize
    ensures count { result ≡ min (length left.now) (length out.old) }
    ensures copied { out.new ≡ take result left.now ++ drop result out.old }
{
    let count = left.len().min(out.len());
    out[..count].copy_from_slice(&left[..count]);
    count
}

/// A sink with room for so many bytes. Contracts see what was written, the room, the calls, and how
/// often it failed.
#[derive(Debug, Drop)]
pub struct MemSink {
    bytes: Vec<u8>,
    room: usize,
    calls: u64,
    failing: Vec<u64>,
    faults: u64,
}

impl Model for MemSink {
    ghost use Rattle.std.specs.Prelude.{◌≤◌, vec_len, vec_capacity};
    ghost use Rattle.pkg_names.specs.MemoryStreams.{SinkInMemory};

    ghost Value = { SinkInMemory };

    ghost view = { λ s. record {
      written = s.bytes.items;
      room = s.room;
      calls = s.calls;
      failing = s.failing.items;
      faults = s.faults;
    } };

    ghost invariant = { λ s. (vec_len s.bytes ≤ s.room) × (s.room ≤ vec_capacity s.bytes) };
}

impl MemSink {
    /// A sink with room for so many bytes, whose listed calls fail.
    pub fn make(alloc: Global, room: u32, failing: Vec<u64>) -> Result<MemSink, AllocError>
        ensures made { IfOk result (λ sink. sink
            ≡ record { written = []; room = room; calls = 0; failing = failing.items; faults = 0 }) }
    {
        let room = room as usize;
        Ok(MemSink {
            bytes: Vec::with_capacity(alloc, room)?,
            room,
            calls: 0,
            failing,
            faults: 0,
        })
    }

    /// What was written.
    pub fn written(&self) -> &[u8]
        ensures written { result.now ≡ self.now.written }
    {
        &self.bytes
    }

    /// How often it has failed.
    pub fn faults(&self) -> u64
        ensures faults { result ≡ self.now.faults }
    {
        self.faults
    }
}

impl Sink for MemSink {
    ghost use Rattle.std.specs.Prelude.{Some};

    ghost written = { λ s. Some s.written };

    ghost faults = { λ s. s.faults };

    /// It takes as many bytes as still fit. A full sink fails.
    fn give(&mut self, bytes: &[u8]) -> Result<usize, SinkFailed>
        requires { 0 < length bytes.now }
        ensures some { IfOk result (λ count. 0 < count) }
        ensures within { IfOk result (λ count. count ≤ length bytes.now) }
        ensures gave { IfOk result (λ count. Gave (Some self.old.written) bytes.now count (Some self.new.written)) }
        ensures err { OnErr result (Some self.new.written ≡ Some self.old.written) }
        ensures cause { OnErr result (Rose self.old.faults self.new.faults) }
        ensures faults { self.old.faults ≤ self.new.faults }

        // It takes all that fits.
        ensures count { IfOk result
            (λ count. count ≡ min (length bytes.now) (self.old.room - length self.old.written)) }

        // A listed call fails, and a call of a full sink, and no other.
        ensures listed { IsErr result ↔
            (IsListed self.old.failing self.old.calls ⊎ (self.old.room ≤ length self.old.written)) }

        // The whole sink after the call.
        ensures given { IfOk result (λ count. self.new ≡ sink_given self.old bytes.now count) }
        ensures failed { OnErr result (self.new ≡ sink_failed self.old) }
    {
        self.calls = self.calls.saturating_add(1);
        if self.failing.contains(&self.calls) {
            self.faults = self.faults.saturating_add(1);
            return Err(SinkFailed);
        }
        let count = bytes.len().min(self.room - self.bytes.len());
        if count == 0 {
            self.faults = self.faults.saturating_add(1);
            return Err(SinkFailed);
        }
        let _ = self.bytes.extend_from_slice(&bytes[..count]);
        Ok(count)
    }
}

/// A sink that takes every byte and keeps none.
#[derive(Clone, Copy, Debug)]
pub struct DropSink;

impl Sink for DropSink {
    ghost use Rattle.std.specs.Prelude.{None};

    ghost written = { λ _. None };

    ghost faults = { λ _. 0 };

    fn give(&mut self, bytes: &[u8]) -> Result<usize, SinkFailed>
        requires { 0 < length bytes.now }
        ensures some { IfOk result (λ count. 0 < count) }
        ensures within { IfOk result (λ count. count ≤ length bytes.now) }
        // It takes every byte.
        ensures all { result ≡ Ok (length bytes.now) }
    {
        Ok(bytes.len())
    }
}
