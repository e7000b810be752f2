//! The reasoner over forms in memory: runs whose text and status are compared with what is expected.
ghost use Rattle.std.specs.Prelude.{◌≤◌};

use crate::asserts::assert_same_in;
use qsr_outside::{BytesSink, BytesSource, Gate, MapShelf, NoGate};
use qsr_top::{Place, Status, run};
use std::alloc::Global;
use std::process::Abort;
use std::test::Fail;
use std::thread::Threads;

pub(crate) const CLOSE: &[&str] = &["close", "rcc8"];

/// The table of friends and strangers.
pub(crate) const RAMSEY: &[u8] =
    b"names ( id a b )\nidentity id\nid :: id\na :: a\nb :: b\nid : id :: ( id )\nid : a :: ( a )\nid : b :: ( b )\n\
      a : id :: ( a )\na : a :: ( id b )\na : b :: ( a b )\nb : id :: ( b )\nb : a :: ( a b )\nb : b :: ( id a )\n.\n";

/// The status of a refusal at a place of one number.
pub(crate) fn refused(number: u32, at: u64) -> Status {
    Status::Refused {
        number,
        place: Place::at(at),
    }
}

/// The network of so many nodes, of which each edge has the set, with these further facts.
pub(crate) fn complete(alloc: Global, nodes: u32, set: &str, facts: &str) -> Result<String, Fail> {
    let mut text = format!(in alloc; "nodes {nodes}\n")?;
    for j in 1..nodes {
        for i in 0..j {
            write!(text, "{i} {j} {set}\n")?;
        }
    }
    text.push_str(facts)?;
    text.push_str(".\n")?;
    Ok(text)
}

/// The words as owned strings.
fn owned(alloc: Global, words: &[&str]) -> Result<Vec<String>, Fail> {
    let mut owned = Vec::new(alloc);
    for word in words {
        owned.push(String::from_str(alloc, word)?)?;
    }
    Ok(owned)
}

/// A shelf with these documents.
pub(crate) fn shelf_of(alloc: Global, documents: &[(&str, &[u8])]) -> Result<MapShelf, Fail> {
    let mut shelf = MapShelf::new(alloc, &[])?;
    for (name, bytes) in documents {
        shelf.put(name, bytes)?;
    }
    Ok(shelf)
}

/// A sink with room for an answer, that takes so many bytes in one write, and whose numbered writes fail.
pub(crate) fn sink_of(
    alloc: Global,
    piece: usize,
    failing_writes: &[u32],
) -> Result<BytesSink, Fail>
    requires { 1 ≤ piece }
{
    let mut sink = BytesSink::new(alloc, piece, failing_writes)?;
    sink.reserve(4096)?;
    Ok(sink)
}

/// Runs between these forms in memory, and returns the status.
pub(crate) fn ended<R: Threads + Sync + AllocGlobal, G: Gate + Sync>(
    rt: &R,
    words: &[&str],
    shelf: &mut MapShelf,
    source: &mut BytesSource,
    sink: &mut BytesSink,
    gate: &G,
) -> Result<Status, Fail> {
    let words = owned(rt.alloc(), words)?;
    Ok(run(rt, rt.alloc(), &words, shelf, source, sink, gate))
}

/// Runs over streams whose numbered calls fail, and returns the status and what was written.
pub(crate) fn ran<R: Threads + Sync + AllocGlobal, G: Gate + Sync>(
    rt: &R,
    words: &[&str],
    source: &[u8],
    failing_reads: &[u32],
    failing_writes: &[u32],
    gate: &G,
) -> Result<(Status, Vec<u8>), Fail> {
    let alloc = rt.alloc();
    let mut shelf = MapShelf::new(alloc, &[])?;
    let mut source = BytesSource::new(alloc, source, 4096, failing_reads)?;
    let mut sink = sink_of(alloc, 5, failing_writes)?;
    let status = ended(rt, words, &mut shelf, &mut source, &mut sink, gate)?;
    Ok((status, sink.bytes().to_vec(alloc)?))
}

/// Runs over a shelf with these documents, and returns the status and what was written.
pub(crate) fn ran_over<R: Threads + Sync + AllocGlobal>(
    rt: &R,
    words: &[&str],
    documents: &[(&str, &[u8])],
    source: &[u8],
) -> Result<(Status, Vec<u8>), Fail> {
    let alloc = rt.alloc();
    let mut shelf = shelf_of(alloc, documents)?;
    let mut source = BytesSource::new(alloc, source, 4096, &[])?;
    let mut sink = sink_of(alloc, 4096, &[])?;
    let status = ended(rt, words, &mut shelf, &mut source, &mut sink, &NoGate)?;
    Ok((status, sink.bytes().to_vec(alloc)?))
}

/// Runs over streams that don't fail: the text that is written, and how the run ends.
pub(crate) fn expect_run<R: Threads + Sync + Abort + AllocGlobal>(
    rt: &R,
    words: &[&str],
    source: &[u8],
    text: &str,
    status: Status,
) -> Result<(), Fail> {
    let (ended, written) = ran(rt, words, source, &[], &[], &NoGate)?;
    assert_same_in(rt, ended, status, (words, source));
    assert_same_in(rt, written.as_slice(), text.as_bytes(), (words, source));
    Ok(())
}

/// Runs over a shelf with these documents: the text that is written, and how the run ends.
pub(crate) fn expect_over<R: Threads + Sync + Abort + AllocGlobal>(
    rt: &R,
    words: &[&str],
    documents: &[(&str, &[u8])],
    source: &str,
    text: &str,
    status: Status,
) -> Result<(), Fail> {
    let (ended, written) = ran_over(rt, words, documents, source.as_bytes())?;
    assert_same_in(rt, ended, status, words);
    assert_same_in(rt, written.as_slice(), text.as_bytes(), words);
    Ok(())
}

/// Runs over a shelf with these documents: the text that is written, and the exit code.
pub(crate) fn expect_code<R: Threads + Sync + Abort + AllocGlobal>(
    rt: &R,
    words: &[&str],
    documents: &[(&str, &[u8])],
    source: &str,
    text: &str,
    code: u8,
) -> Result<(), Fail> {
    let (status, written) = ran_over(rt, words, documents, source.as_bytes())?;
    assert_same_in(rt, status.code(), code, words);
    assert_same_in(rt, written.as_slice(), text.as_bytes(), words);
    Ok(())
}
