//! Words that are no command, streams that fail, and exit codes.
use crate::asserts::{assert_same, assert_same_in};
use crate::runs::{CLOSE, ran};
use qsr_outside::NoGate;
use qsr_top::{Place, Status};
use std::process::Abort;
use std::test::Fail;
use std::thread::Threads;

/// Runs on one node, over streams whose numbered calls fail: how the run ends, and what is written.
fn expect_by_calls<R: Threads + Sync + Abort + AllocGlobal>(
    rt: &R,
    words: &[&str],
    reads: &[u32],
    writes: &[u32],
    status: Status,
    text: &str,
) -> Result<(), Fail> {
    let (ended, written) = ran(rt, words, b"nodes 1\n.\n", reads, writes, &NoGate)?;
    assert_same_in(rt, ended, status, (words, reads, writes));
    assert_same_in(
        rt,
        written.as_slice(),
        text.as_bytes(),
        (words, reads, writes),
    );
    Ok(())
}

const OTHER_WORDS: [&[&str]; 10] = [
    &[],
    &["close"],
    &["close", "rcc8", "extra"],
    &["close", "rcc8", "--workers", "65"],
    &["close", "rcc8", "--workers"],
    &["--workers", "2", "close", "rcc8"],
    &["close", "rcc8", "--workers="],
    &["solve", "rcc8", "--budget", "10001"],
    &["solve", "rcc8", "--budget", "5", "--budget", "6"],
    &["--help"],
];

#[test]
fn other_words_have_the_usage_line(rt: HostRuntime) -> Result<(), Fail> {
    for words in OTHER_WORDS {
        expect_by_calls(&rt, words, &[0], &[], Status::Usage, "usage\n")?;
    }
    Ok(())
}

/// Failing reads, failing writes, how the run ends, and what is written.
const FAULTS: [(&[u32], &[u32], Status, &str); 5] = [
    (&[0], &[], Status::ReadFault, ""),
    (&[1], &[], Status::ReadFault, ""),
    // nothing is read after the end of the input
    (&[2], &[], Status::Done, "nodes 1\n.\n"),
    // nothing is written after a failed write
    (&[], &[0], Status::WriteFault, ""),
    (&[], &[1], Status::WriteFault, "nodes"),
];

#[test]
fn failing_streams_stop_the_run(rt: HostRuntime) -> Result<(), Fail> {
    for (reads, writes, status, text) in FAULTS {
        expect_by_calls(&rt, CLOSE, reads, writes, status, text)?;
    }
    Ok(())
}

/// The place of the number 0.
const START: Place = Place {
    count: 1,
    a: 0,
    b: 0,
    c: 0,
};

const STATUSES: [Status; 10] = [
    Status::Done,
    Status::No,
    Status::Usage,
    Status::Refused {
        number: 18,
        place: START,
    },
    Status::ReadFault,
    Status::WriteFault,
    Status::Memory,
    Status::Budget,
    Status::NotAccepted {
        number: 28,
        place: START,
    },
    Status::TooLong,
];

#[test]
fn codes_are_those_of_the_statuses(rt: HostRuntime) {
    for (code, status) in STATUSES.iter().enumerate() {
        assert_same(&rt, usize::from(status.code()), code);
    }
}
