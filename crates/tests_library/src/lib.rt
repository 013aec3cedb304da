//! Tests of the libraries that know no desk: what no clause says. They stand apart from the crates that they test,
//! so that no library is proved a second time for its tests.
#![tactic(auto)]

#[cfg(test)]
mod archives;
#[cfg(test)]
mod banks;
#[cfg(test)]
mod boards;
#[cfg(test)]
mod bounded_images;
#[cfg(test)]
mod catalogues;
#[cfg(test)]
mod checkpoints;
#[cfg(test)]
mod compactions;
#[cfg(test)]
mod copies;
#[cfg(test)]
mod disks;
#[cfg(test)]
mod folders;
#[cfg(test)]
mod frames;
#[cfg(test)]
mod groups;
#[cfg(test)]
mod histories;
#[cfg(test)]
mod hostile;
#[cfg(test)]
mod images;
#[cfg(test)]
mod merges;
#[cfg(test)]
mod metrics;
#[cfg(test)]
mod pages;
#[cfg(test)]
mod pairs;
#[cfg(test)]
mod publications;
#[cfg(test)]
mod receivers;
#[cfg(test)]
mod replays;
#[cfg(test)]
mod segments;
#[cfg(test)]
mod senders;
#[cfg(test)]
mod settled;
#[cfg(test)]
mod sparse;
#[cfg(test)]
mod times;
#[cfg(test)]
mod vectors;
#[cfg(test)]
mod versions;
