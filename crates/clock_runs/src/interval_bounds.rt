//! Laws of the least intervals of loops.
ghost use Rattle.clock_runs.specs.IntervalBounds.{ForwardRulesHaveAnInterval, RulesToLaterNodesGoForward, TooTightIntervalsAreLow, TooTightCyclesLeadOn, LeastIntervalsAreBounded, SoundLoopsGoForward, SoundLoopsHaveAnInterval, SoundIntervalsAreBounded};

/// Rules that go forward are met at each interval that is at least the sum of their latencies.
pub fn forward_rules_have_an_interval()
    ensures { ForwardRulesHaveAnInterval }
{}

/// Rules go forward that lead to a node of greater number within an iteration.
pub fn rules_to_later_nodes_go_forward()
    ensures { RulesToLaterNodesGoForward }
{}

/// Below the sum of the latencies are all intervals for which a cycle of rules that go forward is too tight.
pub fn too_tight_intervals_are_low()
    ensures { TooTightIntervalsAreLow }
{}

/// Such a cycle leads to a later iteration.
pub fn too_tight_cycles_lead_on()
    ensures { TooTightCyclesLeadOn }
{}

/// The least interval of a loop whose rules go forward is 1, or at most the sum of their latencies.
pub fn least_intervals_are_bounded()
    ensures { LeastIntervalsAreBounded }
{}

/// The rules of a sound loop go forward.
pub fn sound_loops_go_forward()
    ensures { SoundLoopsGoForward }
{}

/// A sound loop has times at each interval that is at least the sum of all latencies of its body.
pub fn sound_loops_have_an_interval()
    ensures { SoundLoopsHaveAnInterval }
{}

/// Each loop of a sound program has an interval of 1, or at most this sum.
pub fn sound_intervals_are_bounded()
    ensures { SoundIntervalsAreBounded }
{}
