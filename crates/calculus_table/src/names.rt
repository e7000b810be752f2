//! Names: the place of one among others, and the first that occurs twice.
ghost use Rattle.std.specs.Prelude.{◌≡◌, ◌≢◌, ℕ, ◌<◌, ◌^◌, ◌↔◌, IsTrue, map, length, slice_get, MatchOption, Some};
ghost use Rattle.std.specs.String.{string_bytes};
ghost use Rattle.calculus_table.specs.Names.{place_of};
ghost use Rattle.calculus_table.specs.Calculus.{AreDistinct, RepeatsAt, IsFirstRepeat};

/// The place of a name among others.
pub fn place_of(names: &[String], name: &[u8]) -> Option<u32>
    requires { length names.now < 2 ^ 32 }
    ensures value { result ≡ place_of name.now (map string_bytes names.now) }
    ensures stands { MatchOption result
        ((r : ℕ) → slice_get (map string_bytes names.now) r ≢ Some name.now)
        (λ r. (r < length names.now)
        × (slice_get (map string_bytes names.now) r ≡ Some name.now)) }
{
    for r in 0..names.len() {
        if names[r].as_bytes() == name {
            return Some(r as u32);
        }
    }
    None
}

/// Whether the name at `k` occurs at an earlier place too.
fn is_repeat(names: &[String], k: usize) -> bool
    requires { k < length names.now }
    ensures { IsTrue result ↔ RepeatsAt (map string_bytes names.now) k }
{
    for j in 0..k {
        if names[j] == names[k] {
            return true;
        }
    }
    false
}

/// The first place whose name occurs at an earlier place too.
pub(crate) fn first_repeat(names: &[String]) -> Option<u32>
    requires { length names.now < 2 ^ 32 }
    ensures { MatchOption result
        (AreDistinct (map string_bytes names.now))
        (IsFirstRepeat (map string_bytes names.now)) }
{
    for k in 0..names.len() {
        if is_repeat(names, k) {
            return Some(k as u32);
        }
    }
    None
}
