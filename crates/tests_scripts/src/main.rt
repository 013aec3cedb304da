//! Cases over an archive and its disk: what it is asked by calls, by scripts of control lines and by commands, what is done to the disk,
//! and what each is answered. README.md, "The lines".
#![tactic(auto)]

mod archives;
mod calls;
mod captures;
mod commands;
mod fakes;
mod files;
mod frames;
mod looks;
mod scripts;
mod world;

use case_files::play_files;
use std::process::ExitCode;
use world::World;

fn main(rt: HostRuntime) -> ExitCode {
    play_files(rt, &mut World::new(rt.alloc()))
}
