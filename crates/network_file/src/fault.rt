//! Why a text is no network file.
ghost use Rattle.std.specs.Prelude.{◌≡◌};
ghost use Rattle.network_file.specs.NetworkFile.{end_fault};

use line_files::TextEnd;
use qsr_lex::NamesFault;
use thiserror::Error;

/// Why a text is no network file over a calculus. The first faulty line decides.
#[derive(Clone, Copy, Debug, PartialEq, Eq, Error)]
pub enum FileFault {
    /// The number of nodes is 0 or above the limit.
    #[error("line {line} has no number of nodes from 1 to the limit")]
    Nodes { line: u32 },
    /// A node's number is at or above the number of nodes.
    #[error("line {line} has a node that isn't there")]
    NoNode { line: u32 },
    /// A fact has one node twice.
    #[error("line {line} has one node twice")]
    SelfEdge { line: u32 },
    /// Two nodes have the same name.
    #[error("line {line} has a name twice")]
    NameTwice { line: u32 },
    /// The line has another form than a network file's, or a byte that isn't allowed.
    #[error("line {line} isn't of the form of a network file")]
    Syntax { line: u32 },
    /// No node, or no base relation, has the name.
    #[error("line {line} has a name that no node or no base relation has")]
    Unknown { line: u32 },
    /// The text ends without the end line.
    #[error("no end line within {lines} lines")]
    NoEnd { lines: u32 },
    /// Out of memory.
    #[error("out of memory")]
    Memory,
}

/// The fault where the lines that can be read end before the end line.
pub(crate) fn end_fault(end: TextEnd) -> FileFault
    ensures { result ≡ end_fault end }
{
    match end {
        TextEnd::BadLine { line } => FileFault::Syntax { line },
        TextEnd::Whole { lines } => FileFault::NoEnd { lines },
    }
}

/// The fault of a line whose names can't be read.
pub(crate) fn names_fault(line: u32, fault: NamesFault) -> FileFault
    ensures form { fault ≡ NamesFault.Form → result ≡ FileFault.Syntax line }
    ensures many { fault ≡ NamesFault.TooMany → result ≡ FileFault.Syntax line }
    ensures memory { fault ≡ NamesFault.Memory → result ≡ FileFault.Memory }
{
    match fault {
        NamesFault::Form | NamesFault::TooMany => FileFault::Syntax { line },
        NamesFault::Memory => FileFault::Memory,
    }
}
