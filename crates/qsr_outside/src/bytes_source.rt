ghost use Rattle.std.specs.Prelude.{◌≡◌, ◌↔◌, ◌++◌, ◌<◌, ◌≤◌, [], None, Some, Contains, length, min, take, drop, IfOk};
ghost use Rattle.std.specs.Prelude.{IsErr, OnErr};
ghost use Rattle.std.specs.Io.KnownBytes.{Consumes};
ghost use Rattle.qsr_outside.specs.Counts.{count_after, Rose, RoseBy};
ghost use Rattle.qsr_outside.specs.InMemory.{after_call, after_failed_call, no_calls};

use crate::calls::Calls;
use crate::failures::{Failed, Memory};
use crate::reading::Source;
use std::alloc::Global;
use std::marker::Model;

/// A source over bytes in memory, that returns at most `piece` bytes in one read and fails where it
/// is told to.
#[derive(Drop)]
pub struct BytesSource {
    bytes: Vec<u8>,
    at: usize,
    piece: usize,
    given: u64,
    calls: Calls,
}

impl Model for BytesSource {
    ghost use Rattle.std.specs.Prelude.{◌≤◌, drop, vec_len};
    ghost use Rattle.qsr_outside.specs.InMemory.{BytesSourceState};

    ghost Value = { BytesSourceState };

    ghost view = { λ s. record {
      left = drop s.at s.bytes.items;
      piece = s.piece;
      given = s.given;
      calls = s.calls;
    } };

    ghost invariant = { λ s. record {
      at_within : s.at ≤ vec_len s.bytes;
      some_piece : 1 ≤ s.piece;
    } };
}

impl BytesSource {
    /// A source that has `bytes` left. The reads whose numbers, from 0, are in `failing` fail.
    pub fn new(alloc: Global, bytes: &[u8], piece: usize, failing: &[u32]) -> Result<Self, Memory>
        requires { 1 ≤ piece }
        ensures { IfOk result (λ s. s ≡ record {
          left = bytes.now;
          piece = piece;
          given = 0;
          calls = no_calls failing.now;
        }) }
    {
        Ok(BytesSource {
            bytes: Vec::from_slice(alloc, bytes).map_err(|_| Memory)?,
            at: 0,
            piece,
            given: 0,
            calls: Calls::new(alloc, failing)?,
        })
    }

    /// The bytes that are left.
    pub fn left(&self) -> &[u8]
        ensures { result.now ≡ self.now.left }
    {
        &self.bytes[self.at..]
    }

    /// How many bytes were given.
    pub fn given(&self) -> u64
        ensures { result ≡ self.now.given }
    {
        self.given
    }

    /// How many reads failed.
    pub fn faults(&self) -> u64
        ensures { result ≡ self.now.calls.faults }
    {
        self.calls.faults()
    }
}

impl Source for BytesSource {
    ghost documents = { λ _. None };

    ghost absent_openings = { λ _. 0 };

    ghost left = { λ s. Some s.left };

    ghost given = { λ s. s.given };

    ghost faults = { λ s. s.calls.faults };

    fn read(&mut self, buf: &mut [u8]) -> Result<usize, Failed>
        requires { 0 < length buf.old }
        ensures fails { IsErr result ↔ Contains self.old.calls.failing self.old.calls.made }
        ensures failed { OnErr result
            (self.new ≡ record self.old { calls = after_failed_call self.old.calls }) }
        ensures failed_buffer { OnErr result (buf.new ≡ buf.old) }
        ensures count { IfOk result
            (λ n. n ≡ min self.old.piece (min (length buf.old) (length self.old.left))) }
        ensures bytes { IfOk result (λ n. buf.new ≡ take n self.old.left ++ drop n buf.old) }
        ensures rest { IfOk result (λ n. self.new ≡ record self.old {
          left = drop n self.old.left;
          given = count_after self.old.given n;
          calls = after_call self.old.calls;
        }) }

        ensures within { IfOk result (λ n. n ≤ length buf.new) }
        ensures gives { IfOk result
            (λ n. Consumes (Some self.old.left) (Some self.new.left) (take n buf.new)) }
        ensures ends_where_none_left { IfOk result (λ n. (n ≡ 0) ↔ (self.old.left ≡ [])) }
        ensures end_leaves_none { IfOk result (λ n. n ≡ 0 → self.new.left ≡ []) }
        ensures counts { IfOk result (λ n. RoseBy self.old.given self.new.given n) }
        ensures failed_is_counted { OnErr result
            (Rose self.old.calls.faults self.new.calls.faults) }
        ensures faults_never_fall { self.old.calls.faults ≤ self.new.calls.faults }
    {
        if self.calls.begin() {
            self.calls.count_fault();
            return Err(Failed);
        }
        let left = self.left();
        let n = self.piece.min(buf.len()).min(left.len());
        buf[..n].copy_from_slice(&left[..n]);
        self.at += n;
        self.given = self.given.saturating_add(n as u64);
        Ok(n)
    }
}
