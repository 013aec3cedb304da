//! Tests of the program's commands, beside their clauses: the words that ask for them, and what they do over real folders. They
//! stand apart from the crates that they test, so that these are not proved a second time for their tests.
#![tactic(auto)]

#[cfg(test)]
mod asking;
#[cfg(test)]
mod client;
#[cfg(test)]
mod folders;
#[cfg(test)]
mod operating;
#[cfg(test)]
mod sending;
#[cfg(test)]
mod serving;
#[cfg(test)]
mod when;
#[cfg(test)]
mod words;
