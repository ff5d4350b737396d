//! Who is still to be asked at a step.
ghost use Rattle.std.specs.Prelude.{◌≡◌, ◌≤◌, ◌<◌, ◌-◌, ◌^◌, ℕ, Contains, OnOk, filter, nat_eq, not};
ghost use Rattle.choice_step.specs.machine.RootOrder.{IsFirstRoot, PassesRoot};

use crate::woken_rules::least_from;
use enf_data::memory::NoMemory;
use pending::Asking;
use std::alloc::Global;

// Who is still to be asked at a step: of what is pending, and of the roots of rules all from one on, and those before
// it that an action moved. Those that are pending and sleep know of the events of so many actions.
#[derive(Drop)]
pub struct Unasked<'a> {
    pub asking: Asking<'a>,
    pub from: usize,
    pub again: Vec<usize>,
    pub roused: usize,
}

impl<'a> Unasked<'a> {
    // The roots of all rules are still to be asked.
    pub fn of(alloc: Global, asking: Asking<'a>) -> Unasked<'a>
        ensures asking { result.asking ≡ asking.entry }
        ensures from { result.from ≡ 0 }
        ensures roused { result.roused ≡ 0 }
    {
        Unasked {
            asking,
            from: 0,
            again: Vec::new(alloc),
            roused: 0,
        }
    }

    // The first root that is to be asked again, or that from which on none was asked.
    pub fn first_root(&self) -> usize
        ensures { IsFirstRoot self.now.from self.now.again.items result }
    {
        least_from(self.again.as_slice(), 0, self.from)
    }

    // The root of the rule, which was the first to be asked, misses nothing.
    pub fn met(&mut self, rule: usize)
        requires first { rule ≤ self.old.from }
        requires within { rule < 2 ^ 64 - 1 }
        ensures asking { self.new.asking ≡ self.old.asking }
        ensures roused { self.new.roused ≡ self.old.roused }
        ensures passes { PassesRoot rule self.old.from self.old.again.items self.new.from self.new.again.items }
    {
        if rule < self.from {
            take_out(&mut self.again, rule);
        } else {
            self.from = rule + 1;
        }
    }

    // The root of a rule is to be asked again.
    pub fn ask_again(&mut self, rule: usize) -> Result<(), NoMemory>
        ensures asking { self.new.asking ≡ self.old.asking }
        ensures from { self.new.from ≡ self.old.from }
        ensures roused { self.new.roused ≡ self.old.roused }
        ensures kept { (other : ℕ) → Contains self.old.again.items other → Contains self.new.again.items other }
        ensures has { OnOk result (Contains self.new.again.items rule) }
    {
        for other in self.again.as_slice() {
            if *other == rule {
                return Ok(());
            }
        }
        self.again.push(rule)?;
        Ok(())
    }
}

// Takes a rule out of some.
fn take_out(rules: &mut Vec<usize>, rule: usize)
    ensures { rules.new.items ≡ filter (λ other. not (nat_eq other rule)) rules.old.items }
{
    rules.retain(
        |other: &usize| -> bool
            ensures { result ≡ not (nat_eq other.now rule) }
        { *other != rule },
    );
}
