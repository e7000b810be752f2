ghost use Rattle.std.specs.Prelude.{◌≡◌, ◌≤◌, [], None, Some, IfSome, IsErr, OnErr, OnOk};
ghost use Rattle.std.specs.Io.KnownBytes.{IsAtEnd};
ghost use Rattle.qsr_outside.specs.Counts.{Rose};
ghost use Rattle.qsr_outside.specs.Documents.{document, CountsOpening};

use crate::failures::Failed;
use crate::reading::Source;

/// A source that opens documents by their names.
pub trait Shelf: Source {
    /// Opens the named document. What is left is then the whole document.
    ///
    /// # Errors
    ///
    /// `Failed` where the shelf's count of faults rose, as it does for a name that no document has.
    /// Then no document is open and nothing is left. Where a call succeeds the count stays.
    fn open(&mut self, name: &str) -> Result<(), Failed>
        ensures opens { OnOk result (IfSome (Self.documents self.old)
            (λ documents. Self.left self.new ≡ document documents name.now)) }
        ensures absent_fails { IfSome (Self.documents self.old)
            (λ documents. document documents name.now ≡ None → IsErr result) }
        ensures failed_leaves_none { OnErr result (IsAtEnd (Self.left self.new)) }
        ensures failed_tells_none { OnErr result (IfSome (Self.documents self.old)
            (λ _. Self.left self.new ≡ Some [])) }
        ensures failed_is_counted { OnErr result
            (Rose (Self.faults self.old) (Self.faults self.new)) }
        ensures ok_is_no_fault { OnOk result (Self.faults self.new ≡ Self.faults self.old) }
        ensures counts_opening { CountsOpening (Self.documents self.old) name.now
            (Self.absent_openings self.old) (Self.absent_openings self.new) }
        ensures faults_never_fall { Self.faults self.old ≤ Self.faults self.new }
        ensures given_stays { Self.given self.new ≡ Self.given self.old }
        ensures documents_stay { Self.documents self.new ≡ Self.documents self.old };
}
