//! Why a text is no table of a calculus.
ghost use Rattle.std.specs.Prelude.{◌≡◌};
ghost use Rattle.line_files.specs.FileText.{IsEndWithin};
ghost use Rattle.calculus_load.specs.TableFile.{end_fault};

use calculus_table::TableFault;
use line_files::TextEnd;
use qsr_lex::NamesFault;
use thiserror::Error;

/// Why a text is no table of a calculus. The first faulty line decides; then what is missing; then the table's own
/// checks.
#[derive(Clone, Copy, Debug, PartialEq, Eq, Error)]
pub enum LoadFault {
    /// The line isn't of the form that is wanted there, or the text ends before the end line, at its number of lines
    /// plus one.
    #[error("line {line} isn't of the form of a table file")]
    Syntax { line: u32 },
    /// The line has a name that is none of the names of the base relations.
    #[error("line {line} has a name that no base relation has")]
    Unknown { line: u32 },
    /// No line gives the converse of `r`, or with `s` the composition of `r` and `s`.
    #[error("no line gives the converse or a composition of base relation {r}")]
    Missing { r: u32, s: Option<u32> },
    /// The line gives a converse or a composition that an earlier line gives.
    #[error("line {line} gives what an earlier line gives")]
    Twice { line: u32 },
    /// The line has more names than a calculus may have base relations.
    #[error("line {line} has too many names")]
    TooMany { line: u32 },
    /// The table breaks one of its checks.
    #[error("the table is no calculus: {0:?}")]
    Table(TableFault),
    /// Out of memory.
    #[error("out of memory")]
    Memory,
}

/// The fault where the lines that can be read end before the end line.
pub(crate) fn end_fault(end: TextEnd) -> LoadFault
    requires { IsEndWithin end }
    ensures { result ≡ end_fault end }
{
    match end {
        TextEnd::BadLine { line } => LoadFault::Syntax { line },
        TextEnd::Whole { lines } => LoadFault::Syntax { line: lines + 1 },
    }
}

/// The fault of a line whose names can't be read.
pub(crate) fn names_fault(line: u32, fault: NamesFault) -> LoadFault
    ensures form { fault ≡ NamesFault.Form → result ≡ LoadFault.Syntax line }
    ensures many { fault ≡ NamesFault.TooMany → result ≡ LoadFault.TooMany line }
    ensures memory { fault ≡ NamesFault.Memory → result ≡ LoadFault.Memory }
{
    match fault {
        NamesFault::Form => LoadFault::Syntax { line },
        NamesFault::TooMany => LoadFault::TooMany { line },
        NamesFault::Memory => LoadFault::Memory,
    }
}
