//! Tests of the archive that threads share, and of agents, in one process: what no clause says. They stand in one crate, since all of
//! them need what archive_lock stands on.
#![tactic(auto)]

#[cfg(test)]
mod agents;
#[cfg(test)]
mod archives;
#[cfg(test)]
mod benches;
#[cfg(test)]
mod ends;
#[cfg(test)]
mod failing;
#[cfg(test)]
mod held_back;
#[cfg(test)]
mod left;
#[cfg(test)]
mod refused_turns;
#[cfg(test)]
mod scenarios;
#[cfg(test)]
mod seat;
#[cfg(test)]
mod sources;
