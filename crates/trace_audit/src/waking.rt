//! What wakes the rules for which something is asked.
ghost use Rattle.std.specs.Prelude.{◌≡◌, ◌++◌, [], ◌∷◌, IfOk, List, Some};
ghost use Rattle.trace_audit.specs.declared.residuals.Link.{Link as AnyLink};
ghost use Rattle.trace_audit.specs.machine.Waiting.{LinksWait, WaitsForEvents};
ghost use Rattle.trace_audit.specs.declared.residuals.Residual.TheVariants as stored;
ghost use Rattle.wake_patterns.specs.machine.WakePatterns as waking;

use crate::residuals::{Link, Residual, Waiting};
use enf_data::items::Items;
use enf_data::memory::NoMemory;
use enf_formula::laws::is_classical;
use sleepers::Patterns;
use std::alloc::Global;
use valuations::Frame;
use wake_patterns::laws::plans_wait;
use wake_patterns::{of_both, patterns_of};

// The patterns of the events that can change what is asked, or none where each step can, and the first time at which it
// is looked at in any case.
#[derive(Drop)]
pub struct Wakes {
    pub patterns: Option<Patterns>,
    pub end: u64,
}

// What wakes a rule for which this is asked.
#[cycle(waking)]
pub fn wakes_of(alloc: Global, rest: &Residual<'_>) -> Result<Wakes, NoMemory>
    ensures { IfOk result (λ wakes. WaitsForEvents rest.now wakes.patterns) }
{
    match rest {
        Residual::Met => Ok(never(alloc)),
        Residual::Failed => Ok(never(alloc)),
        Residual::Waits(waiting) => wakes_of_waiting(alloc, waiting),
        Residual::Chain(links) => wakes_of_chain(alloc, links),
    }
}

// What wakes a rule for which all links of a chain are asked: what wakes one of them.
#[cycle(waking)]
fn wakes_of_chain(alloc: Global, links: &Vec<Link<'_>>) -> Result<Wakes, NoMemory>
    ensures { IfOk result (λ wakes. LinksWait links.now.items wakes.patterns) }
{
    let mut wakes = never(alloc);
    for link in links {
        wakes = with_link(alloc, wakes, link)?;
    }
    Ok(wakes)
}

// With what wakes a link.
#[cycle(waking)]
fn with_link(alloc: Global, wakes: Wakes, link: &Link<'_>) -> Result<Wakes, NoMemory>
    ensures { IfOk result (λ both. (links : List AnyLink) → LinksWait links wakes.patterns
        → LinksWait (links ++ link.now ∷ []) both.patterns) }
{
    match link {
        Link::Both(rest) => either(wakes, wakes_of(alloc, rest)?),
        Link::Either(rest) => either(wakes, wakes_of(alloc, rest)?),
    }
}

// What wakes a rule for which an operator waits.
fn wakes_of_waiting(alloc: Global, waiting: &Waiting<'_>) -> Result<Wakes, NoMemory>
    ensures { IfOk result (λ wakes. WaitsForEvents (stored.Waits waiting.now) wakes.patterns) }
{
    is_classical();
    plans_wait();
    Ok(Wakes {
        patterns: patterns_of(alloc, waiting.node, &Frame::Whole(&waiting.valuation))?,
        end: waiting.high.saturating_add(1),
    })
}

// No event wakes it.
fn never(alloc: Global) -> Wakes
    ensures { result.patterns ≡ Some [] }
{
    Wakes {
        patterns: Some(Items::new(alloc)),
        end: u64::MAX,
    }
}

// What either wakes.
fn either(wakes: Wakes, others: Wakes) -> Result<Wakes, NoMemory>
    ensures { IfOk result (λ all. all.patterns ≡ waking.patterns_of_both wakes.patterns others.patterns) }
{
    Ok(Wakes {
        patterns: of_both(wakes.patterns, others.patterns)?,
        end: wakes.end.min(others.end),
    })
}
