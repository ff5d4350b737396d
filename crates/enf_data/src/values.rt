//! Values: numbers and texts, with their order.
ghost use Rattle.std.specs.Prelude.{◌≡◌};
ghost use Rattle.enf_data.specs.meaning.Values.{value_cmp};

use crate::items::Duplicate;
use crate::memory::NoMemory;
use crate::texts::TextValue;
use std::alloc::Global;
use std::cmp::Ordering;
use std::default::Default;

/// A number or a text.
#[derive(Debug, PartialEq, Eq, PartialOrd, Ord, Hash, Drop)]
pub enum Value {
    Num(i64),
    Text(TextValue),
}

impl Value {
    /// Numbers come before texts, numbers go by value, texts by bytes.
    pub fn compare(&self, other: &Value) -> Ordering
        ensures { result ≡ value_cmp self.now other.now }
    {
        self.cmp(other)
    }
}

impl Default for Value {
    fn default() -> Value {
        Value::Num(0)
    }
}

impl Duplicate for Value {
    fn duplicate(&self, alloc: Global) -> Result<Value, NoMemory> {
        match self {
            Value::Num(number) => Ok(Value::Num(*number)),
            Value::Text(text) => Ok(Value::Text(text.duplicate(alloc)?)),
        }
    }
}
