//! Tests of control_core and control_lines: what no clause says. They stand apart from them, so that these aren't proved a
//! second time for their tests, and apart from the tests of the other libraries, which need not wait for them.
#![tactic(auto)]

#[cfg(test)]
mod desk_calls;
#[cfg(test)]
mod desks;
#[cfg(test)]
mod groups;
#[cfg(test)]
mod lines;
#[cfg(test)]
mod origins;
#[cfg(test)]
mod polled;
#[cfg(test)]
mod requests;
