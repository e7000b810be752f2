//! JSON values of numbers, names, steps, and lists of them.
ghost use Rattle.std.specs.Prelude.{◌≡◌, ◌<◌, ◌^◌, map, All, IfOk, ⊤};
ghost use Rattle.std.specs.String.{string_bytes};
ghost use Rattle.serde_json.specs.Data.{Data, string};
ghost use Rattle.serde_json.specs.View.{view};
ghost use Rattle.cert_file.specs.Written.{number_json, list_json, step_json, IsStepOfNumbers};

use calculus_table::Rel;
use serde_json::Value;
use split_trees::Step;
use std::alloc::{AllocError, Global};

/// What has a JSON value.
pub(crate) trait ToJson: Sized {
    // The JSON value.
    ghost json: { Self → Data };

    // Its numbers fit their types.
    ghost fits: { Self → Type 0 };

    /// Its JSON value.
    fn to_json(&self, alloc: Global) -> Result<Value, AllocError>
        ensures value { IfOk result (λ value. view value ≡ json self.now) }
        ensures numbers { IfOk result (λ _. fits self.now) };
}

impl ToJson for u8 {
    ghost json = { number_json };

    ghost fits = { λ n. n < 2 ^ 8 };

    fn to_json(&self, _alloc: Global) -> Result<Value, AllocError> {
        Ok(Value::from(*self))
    }
}

impl ToJson for u32 {
    ghost json = { number_json };

    ghost fits = { λ n. n < 2 ^ 32 };

    fn to_json(&self, _alloc: Global) -> Result<Value, AllocError> {
        Ok(Value::from(*self))
    }
}

impl ToJson for Rel {
    ghost json = { number_json };

    ghost fits = { λ n. n < 2 ^ 64 };

    fn to_json(&self, _alloc: Global) -> Result<Value, AllocError> {
        Ok(Value::from(self.word()))
    }
}

impl ToJson for String {
    ghost json = { λ text. string (string_bytes text) };

    ghost fits = { λ _. ⊤ };

    fn to_json(&self, alloc: Global) -> Result<Value, AllocError> {
        Value::try_from_str(alloc, self.as_str())
    }
}

impl ToJson for Step {
    ghost json = { step_json };

    ghost fits = { IsStepOfNumbers };

    fn to_json(&self, alloc: Global) -> Result<Value, AllocError> {
        list_value(alloc, &[self.i, self.j, self.k])
    }
}

/// The JSON value of a list.
pub(crate) fn list_value<T: ToJson>(alloc: Global, list: &[T]) -> Result<Value, AllocError>
    ensures value { IfOk result (λ value. view value ≡ list_json T.json list.now) }
    ensures numbers { IfOk result (λ _. All T.fits list.now) }
{
    let mut values = Vec::new(alloc);
    for item in list {
        let value = item.to_json(alloc)?;
        values.push(value)?;
    }
    Ok(Value::Array(values))
}
