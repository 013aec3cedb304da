//! Tests of the server and of who talks to it, both ends in one process: what no clause says.
#![tactic(auto)]

#[cfg(test)]
mod checkpoints;
#[cfg(test)]
mod client;
#[cfg(test)]
mod consumers;
#[cfg(test)]
mod conversations;
#[cfg(test)]
mod crowds;
#[cfg(test)]
mod followers;
#[cfg(test)]
mod groups;
#[cfg(test)]
mod kept;
#[cfg(test)]
mod leaving;
#[cfg(test)]
mod metrics;
#[cfg(test)]
mod misfits;
#[cfg(test)]
mod open_replays;
#[cfg(test)]
mod places;
#[cfg(test)]
mod protocols;
#[cfg(test)]
mod receivers;
#[cfg(test)]
mod recorded;
#[cfg(test)]
mod resumed;
#[cfg(test)]
mod sendings;
#[cfg(test)]
mod serving;
#[cfg(test)]
mod settles;
#[cfg(test)]
mod strict;
#[cfg(test)]
mod vectors;
