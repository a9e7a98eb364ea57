//! What a run comes to.
use hls_base::place::Place;
use hls_base::point::Tally;
use hls_base::refusal::UbRule;
use hls_base::words::Arrays;

/// The result as a bit pattern, none where the function is void; the elements of the array parameters; and how often each point was passed.
#[derive(Drop)]
pub struct Final {
    pub ret: Option<u64>,
    pub arrays: Arrays,
    pub tally: Tally,
}

#[derive(Drop)]
pub enum Outcome {
    Ended(Final),
    Running,
    Undefined(UbRule, Place),
}
