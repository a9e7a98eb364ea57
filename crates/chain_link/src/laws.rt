//! The laws of queues, as contracts.
ghost use Rattle.chain_link.specs.Queues.{QueuesReset, QueuesWork};

/// A memory used as a ring holds a queue.
pub fn queues_work()
    ensures { QueuesWork }
{}

/// After a reset the queue is empty.
pub fn queues_reset()
    ensures { QueuesReset }
{}
