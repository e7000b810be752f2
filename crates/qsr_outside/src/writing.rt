ghost use Rattle.std.specs.Prelude.{◌≡◌, ◌<◌, ◌≤◌, ℕ, List, Option, length, IfOk, OnErr, OnOk};
ghost use Rattle.std.specs.Io.KnownBytes.{Appends, WriteAppends};
ghost use Rattle.qsr_outside.specs.Counts.{Rose};
ghost use Rattle.qsr_outside.specs.Writing.{AppendsPart};

use crate::failures::Failed;

/// Where bytes go.
///
/// A sink may tell the bytes that it holds. Facts on them hold where it tells them.
pub trait Sink {
    // The bytes held, where they are told.
    ghost held: { Self → Option (List ℕ) };

    // How many calls failed so far.
    ghost faults: { Self → ℕ };

    /// Takes bytes from the front of `piece`, and returns how many: at least one, where there is one.
    ///
    /// # Errors
    ///
    /// `Failed` where the sink's count of faults rose, and then nothing was taken. Where a call
    /// succeeds the count stays.
    fn write(&mut self, piece: &[u8]) -> Result<usize, Failed>
        ensures within { IfOk result (λ n. n ≤ length piece.now) }
        ensures takes_some { IfOk result (λ n. 0 < length piece.now → 0 < n) }
        ensures takes { WriteAppends (held self.old) (held self.new) result piece.now }
        ensures failed_is_counted { OnErr result
            (Rose (faults self.old) (faults self.new)) }
        ensures ok_is_no_fault { OnOk result (faults self.new ≡ faults self.old) }
        ensures faults_never_fall { faults self.old ≤ faults self.new };
}

/// Why not all bytes were written.
#[derive(Clone, Copy, Debug, PartialEq, Eq)]
pub enum WriteStop {
    /// A write failed.
    WriteFault,
}

/// Writes all of `bytes`, in as many pieces as the sink wants.
///
/// # Errors
///
/// `WriteFault` where a write failed. What was written until then stays written.
pub fn write_all<W: Sink>(sink: &mut W, bytes: &[u8]) -> Result<(), WriteStop>
    ensures writes_all { OnOk result (Appends (W.held sink.old) (W.held sink.new) bytes.now) }
    ensures fault_writes_part { OnErr result
        (AppendsPart (W.held sink.old) (W.held sink.new) bytes.now) }
    ensures fault_is_counted { OnErr result (Rose (W.faults sink.old) (W.faults sink.new)) }
    ensures ok_is_no_fault { OnOk result (W.faults sink.new ≡ W.faults sink.old) }
    ensures faults_never_fall { W.faults sink.old ≤ W.faults sink.new }
{
    let mut written = 0;
    while written < bytes.len() {
        match sink.write(&bytes[written..]) {
            Ok(n) => written += n,
            Err(Failed) => return Err(WriteStop::WriteFault),
        }
    }
    Ok(())
}
