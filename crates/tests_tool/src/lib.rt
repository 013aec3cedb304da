//! Tests of what the program's commands do, without its command line, that are no cases of tests_scripts: what observers get, memory
//! that is refused, inputs that fail, and what is shown of long readings. They stand apart from the crates that they test, so that these
//! are not proved a second time for their tests.
#![tactic(auto)]

#[cfg(test)]
mod checkpoints;
#[cfg(test)]
mod compactions;
#[cfg(test)]
mod faults;
#[cfg(test)]
mod frames;
#[cfg(test)]
mod lines;
#[cfg(test)]
mod progress;
#[cfg(test)]
mod refused;
#[cfg(test)]
mod scripts;
#[cfg(test)]
mod views;
