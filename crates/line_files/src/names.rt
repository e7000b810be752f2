//! Names as strings of their own.
ghost use Rattle.std.specs.Prelude.{◌≡◌, true, map, All, IfOk};
ghost use Rattle.std.specs.String.{string_bytes};
ghost use Rattle.qsr_lex.specs.Names.{is_name};

use calculus_table::Memory;
use qsr_lex::name_text;
use std::alloc::{AllocError, Global};

/// An owned string of a name.
fn owned_name(alloc: Global, name: &[u8]) -> Result<String, AllocError>
    requires { is_name name.now ≡ true }
    ensures { IfOk result (λ text. string_bytes text ≡ name.now) }
{
    String::from_str(alloc, name_text(name))
}

/// Owned strings of names. Out of memory there are none, and nothing is kept.
pub fn owned_names(alloc: Global, names: &[&[u8]]) -> Result<Vec<String>, Memory>
    requires { All (λ name. is_name name.now ≡ true) names.now }
    ensures { IfOk result (λ texts. map string_bytes texts.items ≡ map (λ name. name.now) names.now) }
{
    let mut texts = Vec::new(alloc);
    for name in names {
        let text = owned_name(alloc, name).map_err(|_| Memory)?;
        texts.push(text).map_err(|_| Memory)?;
    }
    Ok(texts)
}
