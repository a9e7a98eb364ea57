//! What a run of a timed program is, and which programs are well timed.
#![tactic(auto)]
