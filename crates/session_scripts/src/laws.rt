ghost use Rattle.std.specs.Prelude.{◌≡◌};

use crate::{LONGEST_LINE, MOST_LINES, MOST_SESSIONS};

/// The limits of scripts.
pub fn limits_of_scripts()
    ensures line { LONGEST_LINE ≡ 4096 }
    ensures lines { MOST_LINES ≡ 4096 }
    ensures sessions { MOST_SESSIONS ≡ 64 }
{}
