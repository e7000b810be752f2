//! Sources, sinks and shelves in memory, and what is read of them and written to them.
ghost use Rattle.std.specs.Prelude.{◌≤◌, IfOk, IfSome, IsSomeAnd, IsTrue, length};
ghost use Rattle.std.specs.Io.KnownBytes.{Appends};
ghost use Rattle.qsr_outside.specs.Counts.{Rose};
ghost use Rattle.qsr_outside.specs.Reading.{IsOkOrMemory};

use crate::asserts::assert_same;
use qsr_outside::{
    BytesSink, BytesSource, Failed, Gate, MapShelf, NoGate, ReadStop, Shelf, Sink, Source,
    WriteStop, read_all, write_all,
};
use std::alloc::Global;
use std::process::Abort;
use std::test::Fail;

/// The bytes of a source, how many of them a read gives at most, the reads that fail, the limit, the stop, and how
/// many bytes the source has given.
type Reading<'a> = (&'a [u8], usize, &'a [u32], usize, Option<ReadStop>, u64);

const WHOLE_READINGS: [Reading; 3] = [
    (b"", 1, &[], 0, None, 0),
    (b"abcde", 2, &[], 5, None, 5),
    (b"abcde", 100, &[2], 5, None, 5),
];

const LONG_READINGS: [Reading; 2] = [
    (b"abcdefgh", 2, &[3], 4, Some(ReadStop::TooLong), 6),
    (b"abcde", 2, &[], 1, Some(ReadStop::TooLong), 2),
];

const FAILED_READINGS: [Reading; 3] = [
    (b"abcde", 2, &[1], 5, Some(ReadStop::ReadFault), 2),
    (b"abcde", 2, &[3, 0], 5, Some(ReadStop::ReadFault), 0),
    (b"abcde", 2, &[3], 5, Some(ReadStop::ReadFault), 5),
];

/// What was read, or why nothing was.
fn bytes_of(read: &Result<Vec<u8>, ReadStop>) -> Result<&[u8], ReadStop> {
    match read {
        Ok(bytes) => Ok(bytes.as_slice()),
        Err(stop) => Err(*stop),
    }
}

/// Reads all that the source has, and compares what is read with the row.
fn check_reading(rt: &impl Abort, alloc: Global, row: Reading<'_>) -> Result<(), Fail> {
    let (bytes, piece, failing, limit, stop, given) = row;
    assert!(rt; piece >= 1 && limit < 100);
    let mut source = BytesSource::new(alloc, bytes, piece, failing)?;
    let expected = match stop {
        None => Ok(bytes),
        Some(stop) => Err(stop),
    };
    assert_same(rt, bytes_of(&read_all(alloc, &mut source, limit)), expected);
    let faults = u64::from(stop == Some(ReadStop::ReadFault));
    assert_same(rt, (source.given(), source.faults()), (given, faults));
    Ok(())
}

#[test]
fn read_all_returns_all_that_the_source_has_and_reads_no_more(rt: HostRuntime) -> Result<(), Fail> {
    for row in WHOLE_READINGS {
        check_reading(&rt, rt.alloc(), row)?;
    }
    Ok(())
}

#[test]
fn read_all_stops_above_the_limit_and_reads_no_more(rt: HostRuntime) -> Result<(), Fail> {
    for row in LONG_READINGS {
        check_reading(&rt, rt.alloc(), row)?;
    }
    Ok(())
}

#[test]
fn read_all_stops_where_a_read_fails(rt: HostRuntime) -> Result<(), Fail> {
    for row in FAILED_READINGS {
        check_reading(&rt, rt.alloc(), row)?;
    }
    Ok(())
}

/// The bytes to write, how many of them a write takes at most, the room, the writes that fail, and what the sink
/// holds.
type Writing<'a> = (&'a [u8], usize, usize, &'a [u32], &'a [u8]);

const WHOLE_WRITINGS: [Writing; 3] = [
    (b"", 1, 0, &[0], b""),
    (b"abcde", 2, 5, &[3], b"abcde"),
    (b"abcde", 100, 9, &[], b"abcde"),
];

const FAILED_WRITINGS: [Writing; 3] = [
    (b"abcde", 2, 3, &[], b"abc"),
    (b"abcde", 2, 5, &[2], b"abcd"),
    (b"abcde", 2, 5, &[0], b""),
];

/// Writes the bytes, and compares what is written with the row.
fn check_writing(rt: &impl Abort, alloc: Global, row: Writing<'_>) -> Result<(), Fail> {
    let (bytes, piece, room, failing, held) = row;
    assert!(rt; piece >= 1);
    let mut sink = BytesSink::new(alloc, piece, failing)?;
    sink.reserve(room)?;
    let is_whole = held.len() == bytes.len();
    assert_same(rt, write_all(&mut sink, bytes).is_ok(), is_whole);
    assert_same(
        rt,
        (sink.bytes(), sink.faults()),
        (held, u64::from(!is_whole)),
    );
    assert_same(rt, sink.room() + sink.bytes().len(), room);
    Ok(())
}

#[test]
fn write_all_writes_all_where_there_is_room(rt: HostRuntime) -> Result<(), Fail> {
    for row in WHOLE_WRITINGS {
        check_writing(&rt, rt.alloc(), row)?;
    }
    Ok(())
}

#[test]
fn write_all_writes_a_part_where_a_write_fails(rt: HostRuntime) -> Result<(), Fail> {
    for row in FAILED_WRITINGS {
        check_writing(&rt, rt.alloc(), row)?;
    }
    Ok(())
}

/// Asserts that two bytes are read, and that the next read fails.
fn reads_two_and_fails(rt: &impl Abort, source: &mut BytesSource) {
    let mut two = *b"--";
    let mut six = *b"------";
    assert_same(
        rt,
        (source.read(&mut two), source.read(&mut six)),
        (Ok(2), Err(Failed)),
    );
    assert_same(rt, source.left(), b"cdefg".as_slice());
}

/// Asserts that three bytes are read, then two, and then none.
fn reads_the_rest(rt: &impl Abort, source: &mut BytesSource) {
    let mut six = *b"------";
    assert_same(rt, source.read(&mut six), Ok(3));
    assert_same(rt, six.as_slice(), b"cde---".as_slice());
    let read = (source.read(&mut six), source.read(&mut six));
    assert_same(rt, read, (Ok(2), Ok(0)));
}

#[test]
fn a_read_gives_the_least_of_piece_buffer_and_rest(rt: HostRuntime) -> Result<(), Fail> {
    let mut source = BytesSource::new(rt.alloc(), b"abcdefg", 3, &[1])?;
    reads_two_and_fails(&rt, &mut source);
    reads_the_rest(&rt, &mut source);
    assert_same(&rt, (source.given(), source.faults()), (7, 1));
    Ok(())
}

/// Asserts that a sink without room takes nothing.
fn takes_nothing(rt: &impl Abort, sink: &mut BytesSink) {
    assert_same(
        rt,
        (sink.write(b""), sink.write(b"a")),
        (Ok(0), Err(Failed)),
    );
}

/// Asserts that a sink with room for five bytes takes five.
fn takes_five(rt: &impl Abort, sink: &mut BytesSink) {
    assert_same(
        rt,
        (sink.write(b"abcdef"), sink.write(b"ef")),
        (Ok(4), Ok(1)),
    );
    assert_same(rt, sink.write(b"f"), Err(Failed));
}

#[test]
fn room_is_added_to_the_room_left(rt: HostRuntime) -> Result<(), Fail> {
    let mut sink = BytesSink::new(rt.alloc(), 4, &[])?;
    takes_nothing(&rt, &mut sink);
    sink.reserve(2)?;
    sink.reserve(3)?;
    takes_five(&rt, &mut sink);
    assert_same(&rt, (sink.bytes(), sink.faults()), (b"abcde".as_slice(), 2));
    Ok(())
}

/// Asserts that the document `b` is opened once it is asked for, and that a byte of it is read.
fn opens_a_document(rt: &impl Abort, shelf: &mut MapShelf) {
    let mut byte = [0u8; 1];
    assert_same(
        rt,
        (shelf.read(&mut byte), shelf.open("b")),
        (Ok(0), Ok(())),
    );
    assert_same(rt, shelf.read(&mut byte), Ok(1));
}

/// Asserts that the document `b` that is put now is the one that is opened from now on.
fn opens_a_newer_one(rt: &impl Abort, shelf: &mut MapShelf) -> Result<(), Fail> {
    shelf.put("b", b"newer")?;
    assert_same(rt, shelf.left(), b"ld".as_slice());
    assert_same(rt, shelf.open("b"), Ok(()));
    assert_same(rt, shelf.left(), b"newer".as_slice());
    Ok(())
}

/// Asserts that a name without a document isn't opened, and one that has a document the second time.
fn opens_at_the_second_time(rt: &impl Abort, shelf: &mut MapShelf) {
    let mut byte = [0u8; 1];
    assert_same(
        rt,
        (shelf.open("c"), shelf.read(&mut byte)),
        (Err(Failed), Ok(0)),
    );
    assert_same(
        rt,
        (shelf.open("a"), shelf.open("a")),
        (Err(Failed), Ok(())),
    );
    assert_same(rt, shelf.left(), b"first".as_slice());
}

#[test]
fn a_shelf_opens_the_newest_document_of_a_name(rt: HostRuntime) -> Result<(), Fail> {
    let mut shelf = MapShelf::new(rt.alloc(), &[6])?;
    shelf.put("b", b"old")?;
    shelf.put("a", b"first")?;
    opens_a_document(&rt, &mut shelf);
    opens_a_newer_one(&rt, &mut shelf)?;
    opens_at_the_second_time(&rt, &mut shelf);
    let counts = (shelf.absent_openings(), shelf.given(), shelf.faults());
    assert_same(&rt, counts, (1, 1, 2));
    Ok(())
}

const LIMIT: usize = 16;

/// Copies a source to a sink, and returns whether the sink took all.
fn copy<S: Source, W: Sink>(alloc: Global, source: &mut S, sink: &mut W) -> Result<bool, ReadStop>
    ensures copies { IfOk result (λ is_copied. IsTrue is_copied
        → IfSome (S.left source.old) (λ bytes. Appends (W.held sink.old) (W.held sink.new) bytes)) }
    ensures refuses { IfOk result
        (λ is_copied. ¬ IsTrue is_copied → Rose (W.faults sink.old) (W.faults sink.new)) }
    ensures completes { IsSomeAnd (S.left source.old) (λ bytes. length bytes ≤ LIMIT)
        → ¬ Rose (S.faults source.old) (S.faults source.new) → IsOkOrMemory result }
{
    let bytes = read_all(alloc, source, LIMIT)?;
    Ok(write_all(sink, &bytes).is_ok())
}

/// A shelf with two documents.
fn town_and_road(alloc: Global) -> Result<MapShelf, Fail> {
    let mut shelf = MapShelf::new(alloc, &[])?;
    shelf.put("town", b"five words of a town")?;
    shelf.put("road", b"one road")?;
    Ok(shelf)
}

#[test]
fn a_generic_caller_copies_a_shelf_to_a_sink(rt: HostRuntime) -> Result<(), Fail> {
    let mut shelf = town_and_road(rt.alloc())?;
    let mut sink = BytesSink::new(rt.alloc(), 3, &[])?;
    sink.reserve(64)?;
    NoGate.pass(0);
    let road = (shelf.open("road"), copy(rt.alloc(), &mut shelf, &mut sink));
    assert_same(&rt, road, (Ok(()), Ok(true)));
    let town = (shelf.open("town"), copy(rt.alloc(), &mut shelf, &mut sink));
    assert_same(&rt, town, (Ok(()), Err(ReadStop::TooLong)));
    assert_same(&rt, sink.bytes(), b"one road".as_slice());
    Ok(())
}
