//! Tests of files and output, and over source texts of C: their tokens, trees and faults, and the values of constants.
#![tactic(auto)]

#[cfg(test)]
mod calls;
#[cfg(test)]
mod conflicts;
#[cfg(test)]
mod fault;
#[cfg(test)]
mod files;
#[cfg(test)]
mod labels;
#[cfg(test)]
mod lengths;
#[cfg(test)]
mod limits;
#[cfg(test)]
mod names;
#[cfg(test)]
mod printing;
#[cfg(test)]
mod replacement;
#[cfg(test)]
mod syntax;
#[cfg(test)]
mod tokens;
#[cfg(test)]
mod trees;
#[cfg(test)]
mod uses;
#[cfg(test)]
mod values;
