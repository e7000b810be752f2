//! What a source gave of a script: the bytes that belong to no batch that was answered.
//!
//! Bytes are read a piece at a time, and each is copied once, after those that are kept. The bytes of a batch that is
//! answered are cut off at the front. What is left after a `commit` is less than a piece, and is moved there.
ghost use Rattle.std.specs.Prelude.{◌≡◌, ◌⊎◌, ◌+◌, ◌-◌, ◌<◌, ◌≤◌, ◌≢◌, ◌^◌, nat_lt, take, drop, length, true, false};
ghost use Rattle.std.specs.Prelude.{None, Ok, Err, IfErr, IfOk, OnErr};
ghost use Rattle.qsr_lex.specs.declared.TheConstants.{MAX_TEXT};
ghost use Rattle.qsr_outside.specs.Counts.{Rose};
ghost use Rattle.session_scripts.specs.Readers.{TakesBytes, given_to, new_reader};

use crate::PIECE;
use calculus_table::Memory;
use qsr_outside::{Failed, ReadStop, Source};
use std::alloc::Global;
use std::marker::Model;

/// The bytes of a script that were given.
#[derive(Drop)]
pub(crate) struct Input {
    /// The most bytes that the script may have.
    limit: u32,
    /// How many of the bytes given belong to batches that were answered.
    cut: u32,
    /// The bytes given that don't.
    kept: Vec<u8>,
    /// Whether the input has ended.
    ended: bool,
    /// Where a read writes the bytes of a piece.
    piece: Vec<u8>,
}

impl Model for Input {
    ghost use Rattle.std.specs.Prelude.{◌≡◌, ◌+◌, ◌≤◌, None, vec_len};
    ghost use Rattle.qsr_lex.specs.declared.TheConstants.{MAX_TEXT};
    ghost use Rattle.session_scripts.specs.declared.TheConstants.{PIECE};
    ghost use Rattle.session_scripts.specs.Readers.{ReaderState};

    ghost Value = { ReaderState };

    ghost view = { λ i. record {
      limit = i.limit;
      cut = i.cut;
      kept = i.kept.items;
      ended = i.ended;
      stop = None;
    } };

    ghost invariant = { λ i. record {
      limit_fits : i.limit ≤ MAX_TEXT;
      cut_within : i.cut ≤ i.limit;
      few : i.cut + vec_len i.kept ≤ i.limit + PIECE;
      whole_piece : vec_len i.piece ≡ PIECE;
    } };
}

impl Input {
    /// Nothing was given yet of a script that may have so many bytes.
    pub(crate) fn new(alloc: Global, limit: u32) -> Result<Input, Memory>
        requires { limit ≤ MAX_TEXT }
        ensures { IfOk result (λ input. input ≡ new_reader limit) }
    {
        let Ok(piece) = vec![in alloc; 0u8; PIECE] else {
            return Err(Memory);
        };
        Ok(Input {
            limit,
            cut: 0,
            kept: Vec::new(alloc),
            ended: false,
            piece,
        })
    }

    /// The allocator of its memory.
    pub(crate) fn alloc(&self) -> Global {
        *self.kept.allocator()
    }

    /// The bytes kept that lie within the limit.
    pub(crate) fn within(&self) -> &[u8]
        ensures value { result.now ≡ take (self.now.limit - self.now.cut) self.now.kept }
        ensures few { length result.now < 2 ^ 31 }
    {
        let room = (self.limit - self.cut) as usize;
        let len = room.min(self.kept.len());
        &self.kept[..len]
    }

    /// Whether more was given than the limit.
    pub(crate) fn is_too_long(&self) -> bool
        ensures { result ≡ nat_lt self.now.limit (given_to self.now) }
    {
        self.kept.len() > (self.limit - self.cut) as usize
    }

    /// Cuts the bytes of a batch off at the front.
    pub(crate) fn cut_off(&mut self, len: usize)
        requires kept { len ≤ length self.old.kept }
        requires within { self.old.cut + len ≤ self.old.limit }
        ensures { self.new ≡ record self.old {
          cut = self.old.cut + len;
          kept = drop len self.old.kept;
        } }
    {
        self.cut = (self.cut as usize + len) as u32;
        self.kept.copy_within(len.., 0);
        self.kept.truncate(self.kept.len() - len);
    }

    /// Reads a piece, unless the input has ended, and returns whether any byte came.
    ///
    /// # Errors
    ///
    /// `ReadFault` where the read failed, and `Memory` where there is no room for a piece, before the read.
    pub(crate) fn read_more<S: Source>(&mut self, source: &mut S) -> Result<bool, ReadStop>
        requires within { given_to self.old ≤ self.old.limit }
        ensures takes { TakesBytes self.old self.new
            (S.left source.old) (S.left source.new) (S.given source.old) (S.given source.new) }
        ensures few { length self.new.kept ≤ length self.old.kept + PIECE }
        ensures some { result ≡ Ok true → given_to self.old < given_to self.new }
        ensures end { result ≡ Ok false → self.new ≡ record self.old { ended = true } }
        ensures failed { OnErr result (self.new ≡ self.old) }
        ensures read_fault { result ≡ Err ReadStop.ReadFault
            → Rose (S.faults source.old) (S.faults source.new) }
        ensures never_too_long { IfErr result (λ stop. stop ≢ ReadStop.TooLong) }
        ensures faults_are_told { (result ≡ Err ReadStop.ReadFault)
            ⊎ (S.faults source.new ≡ S.faults source.old) }
        ensures source_waits { self.old.ended ≡ true → source.new ≡ source.old }
        ensures no_fault_at_end { self.old.ended ≡ true → ¬ (result ≡ Err ReadStop.ReadFault) }
        ensures faults_never_fall { S.faults source.old ≤ S.faults source.new }
        ensures documents_stay { S.documents source.new ≡ S.documents source.old }
        ensures absent_openings_stay { S.absent_openings source.new ≡ S.absent_openings source.old }
    {
        if self.ended {
            return Ok(false);
        }
        // with room for a piece, no byte that is given is lost
        let Ok(()) = self.kept.reserve(PIECE) else {
            return Err(ReadStop::Memory);
        };
        let n = match source.read(&mut self.piece) {
            Ok(n) => n,
            Err(Failed) => return Err(ReadStop::ReadFault),
        };
        if n == 0 {
            self.ended = true;
            return Ok(false);
        }
        match self.kept.extend_from_slice(&self.piece[..n]) {
            Ok(()) => Ok(true),
            Err(_) => Err(ReadStop::Memory),
        }
    }
}
