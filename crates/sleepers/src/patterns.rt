//! Patterns of events.
ghost use Rattle.std.specs.Prelude.{◌↔◌, IsTrue};
ghost use Rattle.sleepers.specs.machine.Patterns.{FitArgs, FitsArg, HasNone, MatchesPattern, MatchesNone};

use enf_data::{Event, Items, NameId, Value};

/// A name, and of its arguments those that are fixed.
#[derive(Debug, PartialEq, Eq, Drop)]
pub struct Pattern {
    pub name: NameId,
    pub args: Items<Option<Value>>,
}

/// Several patterns.
pub type Patterns = Items<Pattern>;

impl Pattern {
    /// Whether the event is of the pattern.
    pub fn matches(&self, event: &Event) -> bool
        ensures { IsTrue result ↔ MatchesPattern self.now event.now }
    {
        self.name.0 == event.name.0 && fit_args(self.args.as_slice(), event.args.as_slice())
    }

    // Whether none of the events is of the pattern.
    fn matches_none(&self, events: &[Event]) -> bool
        ensures { IsTrue result ↔ MatchesNone self.now events.now }
    {
        for event in events {
            if self.matches(event) {
                return false;
            }
        }
        true
    }
}

/// Whether no event is of one of the patterns.
pub fn has_none(patterns: &[Pattern], events: &[Event]) -> bool
    ensures { IsTrue result ↔ HasNone patterns.now events.now }
{
    let Some((pattern, others)) = patterns.split_first() else {
        return true;
    };
    pattern.matches_none(events) && has_none(others, events)
}

// Whether the values are as many as the arguments, and each that is fixed is the value there.
fn fit_args(args: &[Option<Value>], values: &[Value]) -> bool
    ensures { IsTrue result ↔ FitArgs args.now values.now }
{
    let Some((arg, other_args)) = args.split_first() else {
        return values.is_empty();
    };
    let Some((value, other_values)) = values.split_first() else {
        return false;
    };
    fits_arg(arg, value) && fit_args(other_args, other_values)
}

fn fits_arg(arg: &Option<Value>, value: &Value) -> bool
    ensures { IsTrue result ↔ FitsArg arg.now value.now }
{
    match arg {
        Some(fixed) => *value == *fixed,
        None => true,
    }
}
