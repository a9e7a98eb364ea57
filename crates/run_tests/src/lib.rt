//! Tests of the program by its words: files and lines of each status, and programs with known results and cycles.
#![tactic(auto)]

#[cfg(test)]
mod desk;
#[cfg(test)]
mod known;
#[cfg(test)]
mod modules;
#[cfg(test)]
mod real_files;
#[cfg(test)]
mod statuses;
