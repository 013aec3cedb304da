//! Cases over the bytes of the wire: frames, images, what a receiver sends, and senders. README.md, "The lines".
#![tactic(auto)]

mod feedback;
mod frames;
mod images;
mod senders;
mod words;
mod world;

use case_files::play_files;
use std::process::ExitCode;
use world::World;

fn main(rt: HostRuntime) -> ExitCode {
    play_files(rt, &mut World::new())
}
