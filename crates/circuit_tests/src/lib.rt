//! Tests over circuits and flat programs, their texts and their reports.
#![tactic(auto)]

#[cfg(test)]
mod cycles;
#[cfg(test)]
mod design_rules;
#[cfg(test)]
mod printing;
#[cfg(test)]
mod programs;
#[cfg(test)]
mod reading;
#[cfg(test)]
mod reports;
#[cfg(test)]
mod round_trip;
