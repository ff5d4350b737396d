//! What is still asked of the steps to come. What an operator on the future asks for at one step after the other stands
//! in one list, so that a residual is no deeper than the plan that it is of, however long the trace is.
ghost use Rattle.std.specs.Prelude.{◌↔◌, IfOk, IsTrue, List, length};
ghost use Rattle.enf_data.specs.declared.steps.Step.{Step};
ghost use Rattle.trace_audit.specs.machine.Residuals.{IsAllOf, IsAnyOf, IsHung, IsSettledResidual, LinkMeans};
ghost use Rattle.trace_audit.specs.machine.Residuals.{LinksMean, Means};

use enf_data::memory::NoMemory;
use enf_formula::laws::is_classical;
use plan_terms::Plan;
use std::alloc::Global;
use valuations::Valuation;

// An operator on the future that waits: its node, the values of the variables in scope there, and the first and the
// last time of its window.
#[derive(Drop)]
pub struct Waiting<'p> {
    pub node: &'p Plan,
    pub valuation: Valuation,
    pub low: u64,
    pub high: u64,
}

// What the steps to come are still asked for. A chain is read from its first link on.
#[cycle(residual)]
#[derive(Drop)]
pub enum Residual<'p> {
    Met,
    Failed,
    Waits(Waiting<'p>),
    Chain(Vec<Link<'p>>),
}

// What is asked beside what the links before it ask for: both, or one of the two.
#[cycle(residual)]
#[derive(Drop)]
pub enum Link<'p> {
    Both(Residual<'p>),
    Either(Residual<'p>),
}

// What is met or failed.
pub fn settled<'p>(met: bool) -> Residual<'p>
    ensures { IsSettledResidual met result }
{
    if met { Residual::Met } else { Residual::Failed }
}

// What asks for both. The left side is what grows: the right one is hung on it.
pub fn all<'p>(
    alloc: Global,
    left: Residual<'p>,
    right: Residual<'p>,
) -> Result<Residual<'p>, NoMemory>
    ensures { IfOk result (IsAllOf left.entry right.entry) }
{
    match left {
        Residual::Met => Ok(right),
        Residual::Failed => Ok(Residual::Failed),
        left => match right {
            Residual::Met => Ok(left),
            Residual::Failed => Ok(Residual::Failed),
            right => hang(alloc, left, Link::Both(right)),
        },
    }
}

// What asks for one of both. The left side is what grows: the right one is hung on it.
pub fn any<'p>(
    alloc: Global,
    left: Residual<'p>,
    right: Residual<'p>,
) -> Result<Residual<'p>, NoMemory>
    ensures { IfOk result (IsAnyOf left.entry right.entry) }
{
    is_classical();
    match left {
        Residual::Met => Ok(Residual::Met),
        Residual::Failed => Ok(right),
        left => match right {
            Residual::Met => Ok(Residual::Met),
            Residual::Failed => Ok(left),
            right => hang(alloc, left, Link::Either(right)),
        },
    }
}

// A chain with the link at its end.
fn hang<'p>(alloc: Global, rest: Residual<'p>, link: Link<'p>) -> Result<Residual<'p>, NoMemory>
    ensures { IfOk result (IsHung rest.entry link.entry) }
{
    match rest {
        Residual::Chain(mut links) => {
            links.push(link)?;
            Ok(Residual::Chain(links))
        }
        rest => {
            let mut links = Vec::with_capacity(alloc, 2)?;
            links.push(Link::Both(rest))?;
            links.push(link)?;
            Ok(Residual::Chain(links))
        }
    }
}

// Whether it is met where no step comes any more.
#[cycle(meeting)]
pub fn is_met_at_end(rest: &Residual<'_>) -> bool
    ensures { (trace : List Step) → IsTrue result ↔ Means trace (length trace) rest.now }
{
    match rest {
        Residual::Met => true,
        Residual::Failed => false,
        Residual::Waits(waiting) => matches!(waiting.node, Plan::Always { .. }),
        Residual::Chain(links) => is_chain_met(links),
    }
}

#[cycle(meeting)]
fn is_chain_met(links: &Vec<Link<'_>>) -> bool
    ensures { (trace : List Step) → IsTrue result ↔ LinksMean trace (length trace) (Unit {0}) links.now.items }
{
    let mut met = true;
    for link in links {
        met = is_link_met(met, link);
    }
    met
}

// With a link after what is met or not.
#[cycle(meeting)]
fn is_link_met(met: bool, link: &Link<'_>) -> bool
    ensures { (trace : List Step) → IsTrue result ↔ LinkMeans trace (length trace) (IsTrue met) link.now }
{
    match link {
        Link::Both(rest) => met && is_met_at_end(rest),
        Link::Either(rest) => met || is_met_at_end(rest),
    }
}
