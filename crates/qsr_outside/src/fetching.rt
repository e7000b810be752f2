ghost use Rattle.std.specs.Prelude.{◌≡◌, ◌⊎◌, ◌+◌, ◌^◌, ◌<◌, ◌≤◌, ⊤, length, vec_len, IfOk, OnOk};
ghost use Rattle.std.specs.Io.KnownBytes.{IsAtEnd};
ghost use Rattle.qsr_outside.specs.Counts.{Rose, RoseAbove, RoseBy};
ghost use Rattle.qsr_outside.specs.Documents.{HasDocument, LacksDocument, TellsDocument};
ghost use Rattle.qsr_outside.specs.Reading.{IsOkOrMemory, IsTooLongOrMemory};

use crate::failures::Failed;
use crate::reading::{ReadStop, read_all};
use crate::shelves::Shelf;
use std::alloc::Global;

/// Opens the named document, and returns its bytes, at most `limit` of them.
///
/// # Errors
///
/// `ReadFault` where the opening or a read failed, as the opening of an absent name does, and
/// `TooLong` as soon as more than `limit` bytes were given.
pub fn fetch<F: Shelf>(
    alloc: Global,
    shelf: &mut F,
    name: &str,
    limit: usize,
) -> Result<Vec<u8>, ReadStop>
    requires { limit < 2 ^ 31 }
    ensures whole { IfOk result (λ v.
        TellsDocument (F.documents shelf.old) name.now (λ bytes. v.items ≡ bytes)) }
    ensures ends { OnOk result (IsAtEnd (F.left shelf.new)) }
    ensures within_limit { IfOk result (λ v. vec_len v ≤ limit) }
    ensures counts { IfOk result
        (λ v. RoseBy (F.given shelf.old) (F.given shelf.new) (vec_len v)) }
    ensures given_never_falls { F.given shelf.old ≤ F.given shelf.new }

    ensures absent { LacksDocument (F.documents shelf.old) name.now
        → result ≡ Err ReadStop.ReadFault }
    ensures read_fault_is_counted { result ≡ Err ReadStop.ReadFault
        → Rose (F.faults shelf.old) (F.faults shelf.new) }
    ensures too_long_only_above { result ≡ Err ReadStop.TooLong
        → RoseAbove (F.given shelf.old) (F.given shelf.new) limit }
    ensures too_long_only_where_longer { result ≡ Err ReadStop.TooLong
        → TellsDocument (F.documents shelf.old) name.now (λ bytes. limit < length bytes) }
    ensures too_long_above { F.given shelf.old + limit < F.given shelf.new
        → IsTooLongOrMemory result }
    ensures too_long_where_longer { HasDocument (F.documents shelf.old) name.now (λ bytes. limit < length bytes)
        → ¬ Rose (F.faults shelf.old) (F.faults shelf.new) → IsTooLongOrMemory result }
    ensures completes { HasDocument (F.documents shelf.old) name.now (λ bytes. length bytes ≤ limit)
        → ¬ Rose (F.faults shelf.old) (F.faults shelf.new) → IsOkOrMemory result }

    ensures faults_are_told { (result ≡ Err ReadStop.ReadFault)
        ⊎ (F.faults shelf.new ≡ F.faults shelf.old) }
    ensures faults_never_fall { F.faults shelf.old ≤ F.faults shelf.new }
    ensures documents_stay { F.documents shelf.new ≡ F.documents shelf.old }
    ensures absent_openings_stay { HasDocument (F.documents shelf.old) name.now (λ _. ⊤)
        → F.absent_openings shelf.new ≡ F.absent_openings shelf.old }
{
    match shelf.open(name) {
        Ok(()) => read_all(alloc, shelf, limit),
        Err(Failed) => Err(ReadStop::ReadFault),
    }
}
