//! Scripts of sessions, and how far they are answered where a stream fails.
use crate::asserts::assert_same_in;
use crate::runs::{ended, expect_run, sink_of};
use qsr_outside::{BytesSource, MapShelf, NoGate};
use qsr_top::Status;
use std::test::Fail;
use std::thread::Threads;

const SCRIPT: &[u8] =
    b"s1 assert 0 1 ( TPP )\ns1 assert 1 2 ( NTPP )\ncommit\ns1 peek 0 2\ncommit\n";

/// How many nodes, the script, and the text that is written.
const SCRIPTS: [(&str, &[u8], &str); 6] = [
    (
        "3",
        b"s1 assert 0 1 ( TPP )\ns1 peek 0 1\ns2 assert 1 2 ( NTPP )\ns1 ask 0 2\ncommit\n\
          s2 withdraw 1\ns1 withdraw 1\ns1 ask 0 2\ncommit\ns1 withdraw 1\n",
        "s1 fact 1\ns1 peek ( TPP )\ns2 fact 2\ns1 ask 1 ( NTPP )\nversion 1 closed\n\
         line 1 refused 45\ns1 withdrawn 1\ns1 ask 2 ( DC EC PO TPP NTPP TPPi NTPPi EQ )\nversion 2 closed\n\
         line 1 refused 44\nversion 3 closed\n",
    ),
    (
        "2",
        b"s assert 0 9 ( XX )\ns assert 0 0 ( XX )\ns assert 0 1 ( XX )\n",
        "line 1 refused 15\nline 2 refused 16\nline 3 refused 19\nversion 1 closed\n",
    ),
    (
        "2",
        b"s assert 0 1 ( )\ns withdraw 1\n",
        "s fact 1\nline 2 refused 44\nversion 1 empty\n",
    ),
    ("2", b"", ""),
    ("2", b"commit", "version 1 closed\n"),
    (
        "3",
        SCRIPT,
        "s1 fact 1\ns1 fact 2\nversion 1 closed\ns1 peek ( NTPP )\nversion 2 closed\n",
    ),
];

#[test]
fn sessions_are_answered_batch_by_batch(rt: HostRuntime) -> Result<(), Fail> {
    for (nodes, script, text) in SCRIPTS {
        expect_run(&rt, &["serve", "rcc8", nodes], script, text, Status::Done)?;
    }
    Ok(())
}

const FIRST_BATCH: &str = "s1 fact 1\ns1 fact 2\nversion 1 closed\n";

/// Failing reads, failing writes, how the run ends, the text that is written, and how many bytes were given.
const FAULTS: [(&[u32], &[u32], Status, &str, u64); 3] = [
    (&[52], &[], Status::ReadFault, FIRST_BATCH, 52),
    (&[51], &[], Status::ReadFault, "", 51),
    (&[], &[0], Status::WriteFault, "", 52),
];

/// Serves the script byte by byte over streams whose numbered calls fail, and returns the status, what was written, and
/// how many bytes were given.
fn served<R: Threads + Sync + AllocGlobal>(
    rt: &R,
    failing_reads: &[u32],
    failing_writes: &[u32],
) -> Result<(Status, Vec<u8>, u64), Fail> {
    let alloc = rt.alloc();
    let words = ["serve", "rcc8", "3"];
    let mut shelf = MapShelf::new(alloc, &[])?;
    let mut source = BytesSource::new(alloc, SCRIPT, 1, failing_reads)?;
    let mut sink = sink_of(alloc, 4096, failing_writes)?;
    let status = ended(rt, &words, &mut shelf, &mut source, &mut sink, &NoGate)?;
    Ok((status, sink.bytes().to_vec(alloc)?, source.given()))
}

#[test]
fn a_script_is_answered_up_to_a_fault(rt: HostRuntime) -> Result<(), Fail> {
    for (reads, writes, status, text, given) in FAULTS {
        let (ended, written, taken) = served(&rt, reads, writes)?;
        assert_same_in(&rt, ended, status, (reads, writes));
        assert_same_in(&rt, written.as_slice(), text.as_bytes(), (reads, writes));
        assert_same_in(&rt, taken, given, (reads, writes));
    }
    Ok(())
}
