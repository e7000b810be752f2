//! Why a text is no class of a calculus.
ghost use Rattle.std.specs.Prelude.{◌≡◌};
ghost use Rattle.line_files.specs.FileText.{IsEndWithin};
ghost use Rattle.tract_classes.specs.ClassFile.{end_fault};

use line_files::TextEnd;
use thiserror::Error;

/// The number of the converse among the operations.
pub const CONVERSE: u32 = 1;

/// The number of the intersection among the operations.
pub const MEET: u32 = 2;

/// The number of the composition among the operations.
pub const COMPOSITION: u32 = 3;

/// Why a text is no class of a calculus. The first faulty line decides, and then the tests of the class in this order.
#[derive(Clone, Copy, Debug, PartialEq, Eq, Error)]
pub enum ClassFault {
    /// The line isn't a set of base relations of the calculus, or the text ends before the end line, at its number of
    /// lines plus one.
    #[error("line {line} isn't a set of base relations")]
    Syntax { line: u32 },
    /// The base relation `r` isn't a member by itself.
    #[error("base relation {r} isn't a member by itself")]
    LacksBase { r: u32 },
    /// The operation `op` takes the members `a` and `b` to a set that is no member: 1 the converse of `a`, where `b` is
    /// 0, 2 the intersection, 3 the composition.
    #[error("the class isn't closed: operation {op} on {a:#x} and {b:#x}")]
    NotClosed { a: u64, b: u64, op: u32 },
    /// The line has one set more than a class may have members.
    #[error("line {line} has one member too many")]
    TooMany { line: u32 },
    /// Out of memory.
    #[error("out of memory")]
    Memory,
}

/// The fault where the lines that can be read end before the end line.
pub(crate) fn end_fault(end: TextEnd) -> ClassFault
    requires { IsEndWithin end }
    ensures { result ≡ end_fault end }
{
    match end {
        TextEnd::BadLine { line } => ClassFault::Syntax { line },
        TextEnd::Whole { lines } => ClassFault::Syntax { line: lines + 1 },
    }
}
