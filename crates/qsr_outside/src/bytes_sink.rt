ghost use Rattle.std.specs.Prelude.{◌≡◌, ◌↔◌, ◌⊎◌, ◌+◌, ◌-◌, ◌++◌, ◌<◌, ◌≤◌, [], Some, Contains, length, min, take};
ghost use Rattle.std.specs.Prelude.{IfOk, IsErr, OnErr, OnOk};
ghost use Rattle.std.specs.Io.KnownBytes.{WriteAppends};
ghost use Rattle.qsr_outside.specs.Counts.{Rose};
ghost use Rattle.qsr_outside.specs.InMemory.{after_call, after_failed_call, no_calls};

use crate::calls::Calls;
use crate::failures::{Failed, Memory};
use crate::writing::Sink;
use std::alloc::Global;
use std::marker::Model;

/// A sink that holds bytes in memory, as many as it was given room for. It takes at most `piece`
/// bytes in one write, and fails where it is told to or where it has no room left.
#[derive(Drop)]
pub struct BytesSink {
    bytes: Vec<u8>,
    room: usize,
    piece: usize,
    calls: Calls,
}

impl Model for BytesSink {
    ghost use Rattle.std.specs.Prelude.{◌+◌, ◌≤◌, vec_capacity, vec_len};
    ghost use Rattle.qsr_outside.specs.InMemory.{BytesSinkState};

    ghost Value = { BytesSinkState };

    ghost view = { λ s. record {
      held = s.bytes.items;
      room = s.room;
      piece = s.piece;
      calls = s.calls;
    } };

    ghost invariant = { λ s. record {
      room_is_there : vec_len s.bytes + s.room ≤ vec_capacity s.bytes;
      some_piece : 1 ≤ s.piece;
    } };
}

impl BytesSink {
    /// A sink that holds nothing and has no room yet. The writes whose numbers, from 0, are in
    /// `failing` fail.
    pub fn new(alloc: Global, piece: usize, failing: &[u32]) -> Result<Self, Memory>
        requires { 1 ≤ piece }
        ensures { IfOk result (λ s. s ≡ record {
          held = [];
          room = 0;
          piece = piece;
          calls = no_calls failing.now;
        }) }
    {
        Ok(BytesSink {
            bytes: Vec::new(alloc),
            room: 0,
            piece,
            calls: Calls::new(alloc, failing)?,
        })
    }

    /// Gives the sink room for that many more bytes.
    pub fn reserve(&mut self, room: usize) -> Result<(), Memory>
        ensures ok { OnOk result (self.new ≡ record self.old { room = self.old.room + room }) }
        ensures err { OnErr result (self.new ≡ self.old) }
    {
        let more = self.room.checked_add(room).ok_or(Memory)?;
        self.bytes.reserve(more).map_err(|_| Memory)?;
        self.room = more;
        Ok(())
    }

    /// The bytes held.
    pub fn bytes(&self) -> &[u8]
        ensures { result.now ≡ self.now.held }
    {
        &self.bytes
    }

    /// How many more bytes there is room for.
    pub fn room(&self) -> usize
        ensures { result ≡ self.now.room }
    {
        self.room
    }

    /// How many writes failed.
    pub fn faults(&self) -> u64
        ensures { result ≡ self.now.calls.faults }
    {
        self.calls.faults()
    }
}

impl Sink for BytesSink {
    ghost held = { λ s. Some s.held };

    ghost faults = { λ s. s.calls.faults };

    fn write(&mut self, piece: &[u8]) -> Result<usize, Failed>
        ensures fails { IsErr result
            ↔ (Contains self.old.calls.failing self.old.calls.made
            ⊎ ((self.old.room ≡ 0) × (0 < length piece.now))) }
        ensures failed { OnErr result
            (self.new ≡ record self.old { calls = after_failed_call self.old.calls }) }
        ensures count { IfOk result
            (λ n. n ≡ min self.old.piece (min (length piece.now) self.old.room)) }
        ensures rest { IfOk result (λ n. self.new ≡ record self.old {
          held = self.old.held ++ take n piece.now;
          room = self.old.room - n;
          calls = after_call self.old.calls;
        }) }

        ensures within { IfOk result (λ n. n ≤ length piece.now) }
        ensures takes_some { IfOk result (λ n. 0 < length piece.now → 0 < n) }
        ensures takes { WriteAppends (Some self.old.held) (Some self.new.held) result piece.now }
        ensures failed_is_counted { OnErr result
            (Rose self.old.calls.faults self.new.calls.faults) }
        ensures faults_never_fall { self.old.calls.faults ≤ self.new.calls.faults }
    {
        let is_listed = self.calls.begin();
        if is_listed || (self.room == 0 && !piece.is_empty()) {
            self.calls.count_fault();
            return Err(Failed);
        }
        let n = self.piece.min(piece.len()).min(self.room);
        match self.bytes.extend_from_slice(&piece[..n]) {
            Ok(()) => {}
            Err(_) => unreachable!(),
        }
        self.room -= n;
        Ok(n)
    }
}
