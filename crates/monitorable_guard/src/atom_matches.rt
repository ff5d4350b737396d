//! The events that an atom matches.
ghost use Rattle.std.specs.Prelude.{◌≡◌, length, IfOk, IfSome, IfNone, Some, None, if◌then◌else◌};
ghost use Rattle.monitorable_guard.specs.machine.TermMatches.{IsLeastFor, IsLeastMatch, HasNoMatchFor, HasNoMatch};

use enf_data::memory::NoMemory;
use enf_data::terms::Term;
use enf_data::values::Value;
use valuations::Scope;

// The valuation with as many bindings more as it takes for the terms to have these values; none where they cannot.
pub fn matched<'a>(
    terms: &[Term],
    values: &'a [Value],
    v: Scope<'a>,
) -> Result<Option<Scope<'a>>, NoMemory>
    ensures some { IfOk result (λ found. IfSome found (IsLeastMatch terms.now values.now v.entry)) }
    ensures none { IfOk result (λ found. IfNone found (HasNoMatch terms.now values.now v.entry)) }
{
    if terms.len() == values.len() {
        matched_all(terms, values, v)
    } else {
        Ok(None)
    }
}

fn matched_all<'a>(
    terms: &[Term],
    values: &'a [Value],
    v: Scope<'a>,
) -> Result<Option<Scope<'a>>, NoMemory>
    requires { length terms.now ≡ length values.now }
    ensures some { IfOk result (λ found. IfSome found (IsLeastMatch terms.now values.now v.entry)) }
    ensures none { IfOk result (λ found. IfNone found (HasNoMatch terms.now values.now v.entry)) }
{
    if terms.is_empty() {
        return Ok(Some(v));
    }
    match matched_term(&terms[0], &values[0], v)? {
        Some(w) => matched_all(&terms[1..], &values[1..], w),
        None => Ok(None),
    }
}

pub fn matched_term<'a>(
    term: &Term,
    value: &'a Value,
    v: Scope<'a>,
) -> Result<Option<Scope<'a>>, NoMemory>
    ensures some { IfOk result (λ found. IfSome found (IsLeastFor term.now value.now v.entry)) }
    ensures none { IfOk result (λ found. IfNone found (HasNoMatchFor term.now value.now v.entry)) }
{
    match term {
        Term::Const(constant) => Ok(kept_if(constant == value, v)),
        Term::Var(variable) => {
            if let Some(known) = v.get(*variable) {
                let same = known == value;
                return Ok(kept_if(same, v));
            }
            let mut w = v;
            w.bind(*variable, value)?;
            Ok(Some(w))
        }
    }
}

fn kept_if<'a>(same: bool, v: Scope<'a>) -> Option<Scope<'a>>
    ensures { result ≡ (if same then Some v.entry else None) }
{
    if same { Some(v) } else { None }
}
