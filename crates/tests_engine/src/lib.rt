//! Tests of the archive on one thread that are no cases of tests_scripts: by the plain book, by chance, with memory refused, over fakes.
#![tactic(auto)]

#[cfg(test)]
mod calls;
#[cfg(test)]
mod checkpoints;
#[cfg(test)]
mod compacting;
#[cfg(test)]
mod groups;
#[cfg(test)]
mod handing;
#[cfg(test)]
mod merging;
#[cfg(test)]
mod random;
#[cfg(test)]
mod reference;
#[cfg(test)]
mod refused;
#[cfg(test)]
mod runs;
#[cfg(test)]
mod scene;
#[cfg(test)]
mod script;
#[cfg(test)]
mod syncs;
