//! Which words are a command of the program.
#![tactic(auto)]

mod clap_command;
mod clap_matches;
pub mod command;
mod names;
mod number;
mod options;
mod plain_form;
pub mod reading;
#[cfg(test)]
mod tests;
mod word;
