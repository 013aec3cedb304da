//! The work of layers below the program that `bench/layers.py` measures: the first word names the layer, the second how much.
#![tactic(auto)]

mod catalogue;
mod disk;
mod segments;

use anyhow::{Context, Result};
use std::alloc::Global;
use std::env;

fn main(rt: HostRuntime) -> Result<()> {
    let layer = env::args(&rt)?.nth(1).context("which layer?")?;
    let much: u32 = env::args(&rt)?.nth(2).context("how much?")?.parse()?;
    let told = measured(rt.alloc(), layer.as_str(), much).context("catalogue, disk or segments?")?;
    println!(rt; "{told}")?;
    Ok(())
}

/// What the work of a layer gives.
fn measured(alloc: Global, layer: &str, much: u32) -> Option<u64> {
    match layer {
        "catalogue" => catalogue::entries_read(alloc, much),
        "disk" => disk::changes(alloc, much),
        "segments" => segments::bytes_read(alloc, much),
        _ => None,
    }
}
