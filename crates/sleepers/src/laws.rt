//! Laws of the order of places, each the contract of a function that does nothing.
ghost use Rattle.sleepers.specs.machine.Laws.{OneOrder, StepsKeepOrder, StepsAreMade, StepsCanPutIn, StepsGoInOrder};

/// Lists in order with the same places are the same.
pub fn one_order()
    ensures { OneOrder }
{}

/// Where each entry stays or goes, and others go on from its place, the order is kept; what is begun anew comes last.
pub fn places_keep_order()
    ensures { StepsKeepOrder }
{}

/// What is begun at a step for entries that are awake, and anew, can be put in, and then all is in order, with places
/// from which the next step can go on.
pub fn steps_go_in_order<T>()
    ensures can_put_in { StepsCanPutIn T }
    ensures in_order { StepsGoInOrder T }
    ensures made { StepsAreMade T }
{}
