//! Truths that no step changes.
ghost use Rattle.std.specs.Prelude.{◌≡◌, int_le, int_lt};
ghost use Rattle.enf_data.specs.meaning.Values.{value_eq};
ghost use Rattle.enf_formula.specs.machine.FormulaViews.{tree_of};
ghost use Rattle.valuations.specs.machine.Bindings.{bound_in};
ghost use Rattle.wake_patterns.specs.machine.KnownTruths as truths;

use enf_data::values::Value;
use enf_formula::Formula;
use valuations::Frame;
use valuations::arguments::value_in;

// The truth of a constant, and of a comparison whose terms have values.
pub fn known_truth(formula: &Formula, v: &Frame<'_>) -> Option<bool>
    ensures { result ≡ truths.known_truth (bound_in v.now) (tree_of formula.now) }
{
    match formula {
        Formula::True(_) => Some(true),
        Formula::False(_) => Some(false),
        Formula::Equal(_, s, t) => Some(is_equal(value_in(s, v)?, value_in(t, v)?)),
        Formula::Less(_, s, t) => Some(is_less(value_in(s, v)?, value_in(t, v)?)),
        Formula::AtMost(_, s, t) => Some(is_at_most(value_in(s, v)?, value_in(t, v)?)),
        _ => None,
    }
}

fn is_equal(a: &Value, b: &Value) -> bool
    ensures { result ≡ value_eq a.now b.now }
{
    *a == *b
}

// Whether both are numbers, of which the first is less.
fn is_less(a: &Value, b: &Value) -> bool
    ensures { result ≡ truths.of_numbers int_lt a.now b.now }
{
    match (a, b) {
        (Value::Num(x), Value::Num(y)) => *x < *y,
        _ => false,
    }
}

// Whether both are numbers, of which the first is at most the second.
fn is_at_most(a: &Value, b: &Value) -> bool
    ensures { result ≡ truths.of_numbers int_le a.now b.now }
{
    match (a, b) {
        (Value::Num(x), Value::Num(y)) => *x <= *y,
        _ => false,
    }
}
