//! Nodes of plans that were begun.
use enf_data::items::{Duplicate, Items};
use enf_data::memory::NoMemory;
use std::alloc::Global;
use valuations::Valuation;

/// An operator on the future that was begun: its rule and node, the values of the variables in scope there, the
/// position at which it was begun, and the first and the last time of its window.
#[derive(Debug, Drop)]
pub struct Instance {
    pub rule: u32,
    pub node: u32,
    pub valuation: Valuation,
    pub origin: u64,
    pub low: u64,
    pub high: u64,
}

/// A list of instances.
pub type Instances = Items<Instance>;

impl Duplicate for Instance {
    fn duplicate(&self, alloc: Global) -> Result<Instance, NoMemory> {
        let valuation = self.valuation.duplicate(alloc)?;
        Ok(Instance {
            rule: self.rule,
            node: self.node,
            valuation,
            origin: self.origin,
            low: self.low,
            high: self.high,
        })
    }
}
