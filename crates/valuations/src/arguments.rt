//! The values of terms under what tells the values of variables.
ghost use Rattle.std.specs.Prelude.{◌≡◌, IfOk, IsSome, Some, Contains, map};
ghost use Rattle.std.specs.Option.{option_copied, option_cmp};
ghost use Rattle.enf_data.specs.meaning.Values.{value_cmp};
ghost use Rattle.enf_data.specs.meaning.Valuations.{value_at, value_of_term, values_of_terms};
ghost use Rattle.enf_data.specs.declared.terms.Term.TheVariants.{Var as Variable};
ghost use Rattle.enf_data.specs.declared.terms.VarId.{VarId as AnyVariable};
ghost use Rattle.valuations.specs.machine.RowParts.{key_cmp};

use crate::cells::push_copy;
use crate::scope::Lookup;
use crate::searching::compare_to;
use enf_data::memory::NoMemory;
use enf_data::rows::Row;
use enf_data::terms::Term;
use enf_data::values::Value;
use std::alloc::Global;
use std::cmp::Ordering;

/// The value of a term, where it has one.
pub fn value_in<'a, V: Lookup>(term: &'a Term, v: &'a V) -> Option<&'a Value>
    ensures { option_copied result ≡ value_of_term (V.valuation v.now) term.now }
{
    match term {
        Term::Var(variable) => v.value(*variable),
        Term::Const(value) => Some(value),
    }
}

/// The values of terms whose variables have values: an event's arguments.
pub fn arguments_in<V: Lookup>(alloc: Global, terms: &[Term], v: &V) -> Result<Row, NoMemory>
    requires { (x : AnyVariable) → Contains terms.now (Variable x)
        → IsSome (value_at (V.valuation v.now) x) }
    ensures { IfOk result (λ row. values_of_terms (V.valuation v.now) terms.now ≡ Some row) }
{
    let mut row = Row::new(alloc);
    for term in terms {
        if let Some(value) = value_in(term, v) {
            push_copy(alloc, value, &mut row)?;
        }
    }
    Ok(row)
}

/// The order of a row and the values of terms, a value that is lacking first; it takes no memory.
pub fn compare_to_terms<V: Lookup>(row: &[Value], terms: &[Term], v: &V) -> Ordering
    ensures { result ≡ key_cmp (map Some row.now) (map (value_of_term (V.valuation v.now)) terms.now) }
{
    for (value, term) in row.iter().zip(terms) {
        match compare_to(value, value_in(term, v)) {
            Ordering::Equal => {}
            apart => return apart,
        }
    }
    row.len().cmp(&terms.len())
}
