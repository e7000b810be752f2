//! The first name that occurs twice.
ghost use Rattle.std.specs.Prelude.{◌≡◌, ◌<◌, map, length, IfSome, bytes_eq, []};
ghost use Rattle.std.specs.List.{list_any};
ghost use Rattle.calculus_load.specs.Names.{repeat_after};

/// Whether the name is among these.
fn is_among(name: &[u8], names: &[&[u8]]) -> bool
    ensures { result ≡ list_any (λ other. bytes_eq name.now other.now) names.now }
{
    names.iter().any(|other| name == *other)
}

/// The place of the first name that occurs before it too.
pub(crate) fn first_repeat(names: &[&[u8]]) -> Option<usize>
    ensures value { result ≡ repeat_after [] (map (λ name. name.now) names.now) }
    ensures below { IfSome result (λ at. at < length names.now) }
{
    for at in 0..names.len() {
        if is_among(names[at], &names[..at]) {
            return Some(at);
        }
    }
    None
}
