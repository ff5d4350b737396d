//! Laws of queues of deadlines, each the contract of a function with an empty body.
ghost use Rattle.deadline_queue.specs.machine.Laws.{EntriesAreHeld, OneDeadlineQueue};

/// How often each deadline is held determines a queue, and is how often it stands in the list of what is held.
pub fn queues_are_counts()
    ensures one { OneDeadlineQueue }
    ensures listed { EntriesAreHeld }
{}
