//! Why bytes are no certificate.
ghost use Rattle.std.specs.Prelude.{◌≡◌};
ghost use Rattle.cert_file.specs.Fields.{fault_of};

use thiserror::Error;

/// Why bytes are no certificate.
#[derive(Clone, Copy, Debug, PartialEq, Eq, Error)]
pub enum CertFault {
    /// They are no JSON text.
    #[error("not a JSON text")]
    NotJson,
    /// A key hasn't a value of the right form: `field` is 0 for the whole, which isn't an object, 1 for `nodes`, 2
    /// for `relations`, 3 for `scenario`, 4 for `tree`, 5 for `verdict`, 6 for `version`. `index` is that of the
    /// first wrong entry, where the value is an array that has one, else 0.
    #[error("entry {index} of field {field} isn't of the right form")]
    Field { field: u32, index: u32 },
    /// Out of memory.
    #[error("out of memory")]
    Memory,
}

/// Why a JSON value isn't of the form that is wanted.
#[derive(Clone, Copy, Debug, PartialEq, Eq)]
pub(crate) enum Wrong {
    /// Its entry at this index is the first that isn't, or it is no array without such entries, and the index is 0.
    At { index: u32 },
    /// That isn't known: out of memory.
    Memory,
}

/// It isn't, as a whole.
pub(crate) const WRONG: Wrong = Wrong::At { index: 0 };

impl Wrong {
    /// The fault of the key with this number.
    pub(crate) fn at_key(self, field: u32) -> CertFault
        ensures { result ≡ fault_of field self }
    {
        match self {
            Wrong::At { index } => CertFault::Field { field, index },
            Wrong::Memory => CertFault::Memory,
        }
    }
}
