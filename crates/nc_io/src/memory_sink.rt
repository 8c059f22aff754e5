//! A sink in memory, which fails at the calls that are listed and where no room is left.
ghost use Rattle.std.specs.Prelude.{◌≡◌, ◌+◌, ◌<◌, ◌≤◌, ◌↔◌, [], ◌++◌, take, length, vec_len, vec_capacity, IsTrue, is_err, IfOk, MatchResult};
ghost use Rattle.nc_io.specs.Adds.{PutAdds};
ghost use Rattle.nc_io.specs.Causes.{HasCause};
ghost use Rattle.nc_io.specs.Memory.{IsFailingPut, call_number, kept_count, put_count, told};

use crate::{Failed, Sink};
use std::alloc::{AllocError, Global};

/// Bytes that are kept in steps, as far as the room that was reserved goes.
///
/// A call fails where its number, counted from 1, stands in `failing`, or `spare` is 0. `calls` and `faults` stop rising
/// at `u64::MAX`: from then on every call has that number, and a sink whose `faults` can't rise doesn't fail. Such a sink
/// doesn't tell its bytes any more, and where it finds no room it drops the piece and reports it as put.
#[derive(Drop)]
pub struct MemorySink {
    pub bytes: Vec<u8>,
    /// How many more bytes there is room for.
    pub spare: usize,
    /// The most bytes that one call keeps.
    pub step: usize,
    pub calls: u64,
    /// The numbers of the calls that fail, in any order.
    pub failing: Vec<u64>,
    pub faults: u64,
    ghost keeps: { 0 < step },
    ghost reserved: { vec_len bytes + spare ≤ vec_capacity bytes },
}

impl MemorySink {
    /// Reserves the room, which is all the memory that the sink takes.
    pub fn of(
        alloc: Global,
        room: usize,
        step: usize,
        failing: Vec<u64>,
    ) -> Result<MemorySink, AllocError>
        requires keeps { 0 < step }
        ensures bytes { IfOk result (λ s. s.bytes.items ≡ []) }
        ensures spare { IfOk result (λ s. s.spare ≡ room) }
        ensures step { IfOk result (λ s. s.step ≡ step) }
        ensures failing { IfOk result (λ s. s.failing ≡ failing) }
        ensures calls { IfOk result (λ s. s.calls ≡ 0) }
        ensures faults { IfOk result (λ s. s.faults ≡ 0) }
    {
        let mut bytes = Vec::new(alloc);
        bytes.reserve(room)?;
        Ok(MemorySink {
            bytes,
            spare: room,
            step,
            calls: 0,
            failing,
            faults: 0,
        })
    }
}

impl Sink for MemorySink {
    ghost written = { λ s. told s.bytes.items s.faults };

    ghost faults = { λ s. s.faults };

    /// Takes no memory.
    fn put(&mut self, piece: &[u8]) -> Result<usize, Failed>
        requires offered { 0 < length piece.now }
        ensures some { IfOk result (λ n. (0 < n) × (n ≤ length piece.now)) }
        ensures bytes { PutAdds (told self.old.bytes.items self.old.faults)
            (told self.new.bytes.items self.new.faults) result piece.now }
        ensures cause { HasCause self.old.faults self.new.faults result }

        // When it fails, and how much it puts otherwise.
        ensures fails { IsTrue (is_err result)
            ↔ IsFailingPut self.old.failing.items self.old.calls self.old.faults self.old.spare }
        ensures count { IfOk result (λ n. n ≡ put_count self.old.step self.old.spare
            (length piece.now)) }

        // What becomes of each field.
        ensures kept { MatchResult result
            (λ _. self.new.bytes.items ≡ self.old.bytes.items
            ++ take (kept_count self.old.step self.old.spare (length piece.now)) piece.now)
            (λ _. self.new.bytes.items ≡ self.old.bytes.items) }
        ensures room { self.new.spare + vec_len self.new.bytes ≡ self.old.spare
            + vec_len self.old.bytes }
        ensures calls { self.new.calls ≡ call_number self.old.calls }
        ensures faults { MatchResult result (λ _. self.new.faults ≡ self.old.faults)
            (λ _. self.new.faults ≡ self.old.faults + 1) }
        ensures same_step { self.new.step ≡ self.old.step }
        ensures same_failing { self.new.failing ≡ self.old.failing }
    {
        self.calls = self.calls.saturating_add(1);
        if self.faults < u64::MAX && (self.spare == 0 || self.failing.contains(&self.calls)) {
            self.faults += 1;
            return Err(Failed);
        }
        if self.spare == 0 {
            return Ok(piece.len());
        }
        let count = self.step.min(self.spare).min(piece.len());
        match self.bytes.extend_from_slice(&piece[..count]) {
            Ok(()) => {
                self.spare -= count;
                Ok(count)
            }
            Err(_) => unreachable!(),
        }
    }
}
