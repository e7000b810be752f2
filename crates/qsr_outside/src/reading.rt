ghost use Rattle.std.specs.Prelude.{◌≡◌, ◌↔◌, ◌⊎◌, ◌+◌, ◌^◌, ◌<◌, ◌≤◌, ℕ, List, [], Option, length, take, vec_len};
ghost use Rattle.std.specs.Prelude.{IfSome, IsSomeAnd, IfOk, OnErr, OnOk};
ghost use Rattle.std.specs.Io.KnownBytes.{Consumes, IsAtEnd, Keeps};
ghost use Rattle.qsr_outside.specs.Counts.{Rose, RoseAbove, RoseBy};
ghost use Rattle.qsr_outside.specs.Documents.{Documents};
ghost use Rattle.qsr_outside.specs.Reading.{IsOkOrMemory, IsTooLongOrMemory};

use crate::failures::Failed;
use std::alloc::Global;

/// Where bytes come from.
///
/// A source may tell the documents that it has by name and the bytes that it has left. Facts on
/// either hold where it tells them.
pub trait Source {
    // The named documents, where they are told. A source without names tells none.
    ghost documents: { Self → Option Documents };

    // How often a name that no document has was opened.
    ghost absent_openings: { Self → ℕ };

    // The bytes that are left, where they are told.
    ghost left: { Self → Option (List ℕ) };

    // How many bytes were given so far.
    ghost given: { Self → ℕ };

    // How many calls failed so far.
    ghost faults: { Self → ℕ };

    /// Writes the next bytes to the front of `buf`, and returns how many. `Ok(0)` is the end of input.
    ///
    /// # Errors
    ///
    /// `Failed` where the source's count of faults rose, and then no byte was given. Where a call
    /// succeeds the count stays, so a failed read can't be hidden by a later one.
    fn read(&mut self, buf: &mut [u8]) -> Result<usize, Failed>
        requires { 0 < length buf.old }
        ensures within { IfOk result (λ n. n ≤ length buf.new) }
        ensures gives { IfOk result
            (λ n. Consumes (left self.old) (left self.new) (take n buf.new)) }
        ensures ends_where_none_left { IfOk result
            (λ n. IfSome (left self.old) (λ bytes. (n ≡ 0) ↔ (bytes ≡ []))) }
        ensures end_leaves_none { IfOk result (λ n. n ≡ 0 → IsAtEnd (left self.new)) }
        ensures counts { IfOk result (λ n. RoseBy (given self.old) (given self.new) n) }
        ensures failed_gives_none { OnErr result (Keeps (left self.old) (left self.new)) }
        ensures failed_counts_none { OnErr result (given self.new ≡ given self.old) }
        ensures failed_is_counted { OnErr result (Rose (faults self.old) (faults self.new)) }
        ensures ok_is_no_fault { OnOk result (faults self.new ≡ faults self.old) }
        ensures faults_never_fall { faults self.old ≤ faults self.new }
        ensures documents_stay { documents self.new ≡ documents self.old }
        ensures absent_openings_stay { absent_openings self.new ≡ absent_openings self.old };
}

/// Why a source was not read to its end.
#[derive(Clone, Copy, Debug, PartialEq, Eq)]
pub enum ReadStop {
    /// A read failed.
    ReadFault,
    /// More than the limit was given.
    TooLong,
    /// Memory ran out.
    Memory,
}

/// How many bytes are asked for at once.
const BUFFER_LEN: usize = 8192;

/// Reads the source until the end of input, and returns the bytes that it gave, at most `limit` of
/// them.
///
/// # Errors
///
/// `ReadFault` where a read failed, and `TooLong` as soon as more than `limit` bytes were given. The
/// bytes given so far stay given.
pub fn read_all<S: Source>(alloc: Global, source: &mut S, limit: usize) -> Result<Vec<u8>, ReadStop>
    requires { limit < 2 ^ 31 }
    ensures gives_all { IfOk result (λ v. Consumes (S.left source.old) (S.left source.new) v.items) }
    ensures ends { OnOk result (IsAtEnd (S.left source.new)) }
    ensures whole { IfOk result (λ v. IfSome (S.left source.old) (λ bytes. v.items ≡ bytes)) }
    ensures within_limit { IfOk result (λ v. vec_len v ≤ limit) }
    ensures ok_only_within { OnOk result
        (IfSome (S.left source.old) (λ bytes. length bytes ≤ limit)) }
    ensures counts { IfOk result
        (λ v. RoseBy (S.given source.old) (S.given source.new) (vec_len v)) }
    ensures given_never_falls { S.given source.old ≤ S.given source.new }

    ensures read_fault_is_counted { result ≡ Err ReadStop.ReadFault
        → Rose (S.faults source.old) (S.faults source.new) }
    ensures too_long_only_above { result ≡ Err ReadStop.TooLong
        → RoseAbove (S.given source.old) (S.given source.new) limit }
    ensures too_long_only_where_left { result ≡ Err ReadStop.TooLong
        → IfSome (S.left source.old) (λ bytes. limit < length bytes) }
    ensures too_long_above { S.given source.old + limit < S.given source.new
        → IsTooLongOrMemory result }
    ensures too_long_where_left { IsSomeAnd (S.left source.old) (λ bytes. limit < length bytes)
        → ¬ Rose (S.faults source.old) (S.faults source.new) → IsTooLongOrMemory result }
    ensures completes { IsSomeAnd (S.left source.old) (λ bytes. length bytes ≤ limit)
        → ¬ Rose (S.faults source.old) (S.faults source.new) → IsOkOrMemory result }

    ensures faults_are_told { (result ≡ Err ReadStop.ReadFault)
        ⊎ (S.faults source.new ≡ S.faults source.old) }
    ensures faults_never_fall { S.faults source.old ≤ S.faults source.new }
    ensures documents_stay { S.documents source.new ≡ S.documents source.old }
    ensures absent_openings_stay { S.absent_openings source.new ≡ S.absent_openings source.old }
{
    let mut buffer = vec![in alloc; 0u8; BUFFER_LEN].map_err(|_| ReadStop::Memory)?;
    let mut bytes = Vec::new(alloc);
    loop {
        let n = match source.read(&mut buffer) {
            Ok(n) => n,
            Err(Failed) => return Err(ReadStop::ReadFault),
        };
        if n == 0 {
            return Ok(bytes);
        }
        if n > limit - bytes.len() {
            return Err(ReadStop::TooLong);
        }
        bytes
            .extend_from_slice(&buffer[..n])
            .map_err(|_| ReadStop::Memory)?;
    }
}
