//! The names of base relations, looked up by their bytes.
//!
//! A name is hashed to one of `HINTS` places, where the base relation stands that was hashed there last. It is a hint
//! only: its name is compared, and where that is another, all names are tried one after another. So what is found
//! doesn't depend on the hash, and a look-up costs the hash and one comparison, unless two names meet at one place. 64
//! names among 1,024 places meet twice on average.
//!
//! Most names are short. A name of at most seven bytes has a key: its bytes as the digits of a number to base 256,
//! above which stands a 1, so that no two names have the same key. It is hashed by one multiplication, and compared as
//! a number. The bytes of longer names are hashed and compared one after another.
ghost use Rattle.std.specs.Prelude.{◌≡◌, ◌≢◌, ◌^◌, ◌<◌, ◌≤◌, true, map, length, IfSome, Some, None, if◌then◌else◌};
ghost use Rattle.named_sets.specs.Named.{IsAt};
ghost use Rattle.named_sets.specs.Keys.{IsKeyOf, AreKeys};
ghost use Rattle.std.specs.List.{list_all};
ghost use Rattle.std.specs.String.{string_bytes};
ghost use Rattle.qsr_lex.specs.Names.{is_name};
ghost use Rattle.calculus_table.specs.Names.{place_of};
ghost use Rattle.calculus_table.specs.Calculus.{AreDistinct};
ghost use Rattle.calculus_table.specs.declared.TheConstants.{MAX_BASES};

use calculus_table::{MAX_BASES, place_of};
use qsr_lex::is_name;
use std::marker::Model;

/// How many places there are for hints.
const HINTS: usize = 1024;

/// How many base relations there may be.
const BASES: usize = MAX_BASES as usize;

/// The key of each base relation's name, where it has one, and 0 for the others; and the base relations at the places
/// to which their names are hashed.
#[derive(Drop)]
struct Hints {
    keys: [u64; BASES],
    places: [u8; HINTS],
}

/// The names of base relations, which differ.
#[derive(Drop)]
pub struct BaseNames<'a> {
    names: &'a [String],
    hints: Hints,
    are_names: bool,
}

impl<'a> Model for BaseNames<'a> {
    ghost use Rattle.std.specs.Prelude.{List, ℕ, ◌≡◌, ◌≤◌, true, map, length};
    ghost use Rattle.std.specs.String.{string_bytes};
    ghost use Rattle.calculus_table.specs.declared.TheConstants.{MAX_BASES};
    ghost use Rattle.named_sets.specs.Named.{AreBaseNames};

    ghost Value = { List (List ℕ) };

    ghost view = { λ r. map string_bytes r.names.now };

    ghost invariant = { λ r. AreBaseNames (map string_bytes r.names.now) r.hints.keys r.are_names };
}

impl<'a> BaseNames<'a> {
    /// The names of the base relations of a calculus.
    pub fn new(names: &'a [String]) -> Self
        requires few { length names.now ≤ MAX_BASES }
        requires distinct { AreDistinct (map string_bytes names.now) }
        ensures { result ≡ map string_bytes names.now }
    {
        BaseNames {
            names,
            hints: hints_for(names),
            are_names: are_names(names),
        }
    }

    /// The base relation of this name.
    pub fn find(&self, name: &[u8]) -> Option<u32>
        ensures value { result ≡ place_of name.now self.now }
        ensures below { IfSome result (λ r. r < length self.now) }
        ensures few { length self.now ≤ MAX_BASES }
    {
        if let Some(r) = self.hinted(name) {
            return Some(r);
        }
        place_of(self.names, name)
    }

    /// The base relation of a word, if the word is a name.
    #[inline(always)]
    pub(crate) fn base_of(&self, word: &[u8]) -> Option<Option<u32>>
        ensures value { result ≡ (if is_name word.now then Some (place_of word.now self.now) else None) }
        ensures below { IfSome result (λ base. IfSome base (λ r. r < length self.now)) }
        ensures few { length self.now ≤ MAX_BASES }
    {
        if self.are_names
            && let Some(r) = self.hinted(word)
        {
            return Some(Some(r));
        }
        self.tested_base_of(word)
    }

    /// The base relation of a word, if the word is a name, which is tested first.
    #[inline(never)]
    fn tested_base_of(&self, word: &[u8]) -> Option<Option<u32>>
        ensures value { result ≡ (if is_name word.now then Some (place_of word.now self.now) else None) }
        ensures below { IfSome result (λ base. IfSome base (λ r. r < length self.now)) }
    {
        if is_name(word) {
            Some(self.find(word))
        } else {
            None
        }
    }

    /// The base relation at the place of the hint for a name, if it has this name.
    #[inline(always)]
    fn hinted(&self, name: &[u8]) -> Option<u32>
        ensures value { IfSome result (λ r. place_of name.now self.now ≡ Some r) }
        ensures below { IfSome result (λ r. r < length self.now) }
        ensures few { length self.now ≤ MAX_BASES }
    {
        let key = key_of(name);
        if key == 0 {
            return self.hinted_longer(name);
        }
        let hint = usize::from(self.hints.places[place_of_key(key)]) % BASES;
        if self.hints.keys[hint] == key {
            Some(hint as u32)
        } else {
            None
        }
    }

    /// The base relation at the place of the hint for a name without a key, if it has this name.
    #[inline(never)]
    fn hinted_longer(&self, name: &[u8]) -> Option<u32>
        ensures value { IfSome result (λ r. place_of name.now self.now ≡ Some r) }
        ensures below { IfSome result (λ r. r < length self.now) }
        ensures few { length self.now ≤ MAX_BASES }
    {
        let hint = usize::from(self.hints.places[place_of_longer(name)]);
        if is_at(self.names, hint, name) {
            Some(hint as u32)
        } else {
            None
        }
    }
}

/// Whether the name stands at this place.
fn is_at(names: &[String], place: usize, name: &[u8]) -> bool
    ensures { result ≡ true → IsAt (map string_bytes names.now) place name.now }
{
    place < names.len() && names[place].as_bytes() == name
}

/// Whether each name may stand in a file.
fn are_names(names: &[String]) -> bool
    ensures { result ≡ list_all is_name (map string_bytes names.now) }
{
    for name in names {
        if !is_name(name.as_bytes()) {
            return false;
        }
    }
    true
}

/// The key of a name of at most seven bytes, and 0 for a longer one.
#[inline(always)]
fn key_of(name: &[u8]) -> u64
    ensures { result ≢ 0 → IsKeyOf result name.now }
{
    let [a, b, c, d, rest @ ..] = name else {
        return short_key_of(name);
    };
    let upper = short_key_of(rest);
    if upper == 0 {
        return 0;
    }
    let first = u64::from(*a) + u64::from(*b) * 0x100;
    let second = u64::from(*c) + u64::from(*d) * 0x100;
    first + second * 0x1_0000 + upper * 0x1_0000_0000
}

/// The key of a name of at most three bytes, and 0 for a longer one.
#[inline(always)]
fn short_key_of(name: &[u8]) -> u64
    ensures key { result ≢ 0 → IsKeyOf result name.now }
    ensures bound { result < 2 ^ 25 }
{
    match name {
        [] => 1,
        [a] => u64::from(*a) + 0x100,
        [a, b] => u64::from(*a) + u64::from(*b) * 0x100 + 0x1_0000,
        [a, b, c] => {
            u64::from(*a) + u64::from(*b) * 0x100 + u64::from(*c) * 0x1_0000 + 0x100_0000
        }
        _ => 0,
    }
}

/// The place of the hint for a key: the upper bits of its product with 2 ^ 64 over the golden ratio.
#[inline(always)]
fn place_of_key(key: u64) -> usize
    ensures { result < HINTS }
{
    (key.wrapping_mul(0x9E37_79B9_7F4A_7C15) >> 54) as usize
}

/// The place of the hint for a name without a key.
fn place_of_longer(name: &[u8]) -> usize
    ensures { result < HINTS }
{
    let mut hash: usize = 0;
    for byte in name {
        hash = hash.wrapping_mul(31).wrapping_add(usize::from(*byte));
    }
    hash % HINTS
}

/// The hints for names.
fn hints_for(names: &[String]) -> Hints
    requires { length names.now ≤ MAX_BASES }
    ensures { AreKeys (map string_bytes names.now) result.keys }
{
    let mut hints = Hints {
        keys: [0; BASES],
        places: [0; HINTS],
    };
    for r in 0..names.len() {
        let name = names[r].as_bytes();
        let key = key_of(name);
        let place = if key == 0 {
            place_of_longer(name)
        } else {
            place_of_key(key)
        };
        hints.keys[r] = key;
        hints.places[place] = r as u8;
    }
    hints
}
