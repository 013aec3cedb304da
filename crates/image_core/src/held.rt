//! The frames that are held, by rising position.

ghost use Rattle.std.specs.Prelude.{◌≡◌, ◌<◌, ◌≤◌, ◌^◌, OnOk, OnErr, IfErr};
ghost use Rattle.std.specs.Ordering.{nat_cmp};
ghost use Rattle.std.specs.BTreeMap.{insert_entry};
ghost use Rattle.frame_core.specs.declared.refusal.Refusal.TheVariants.{NoMemory};
ghost use Rattle.image_core.specs.Kept.{AreSpaced, without_positions};
ghost use Rattle.image_core.specs.Rebuild.{chain_end, next_start};
ghost use Rattle.image_core.specs.Received.{is_free};

use frame_core::{Frame, Refusal};
use std::collections::BTreeMap;

/// Whether a range overlaps no frame that is held.
pub fn is_free(held: &BTreeMap<u64, Frame>, position: u64, end: u64) -> bool
    requires spaced { AreSpaced 0 (2 ^ 62) held.now.entries }
    requires some { position < end }
    ensures { result ≡ is_free position end held.now.entries }
{
    match held.range(..end).next_back() {
        Some((start, frame)) => *start + frame.aligned_length() <= position,
        None => true,
    }
}

/// The end of the longest chain of held frames from a position.
#[tactic(auto, using(crate::proofs::ChainLemmas::found, crate::proofs::ChainLemmas::chain_none))]
pub fn chain_end(held: &BTreeMap<u64, Frame>, from: u64) -> u64
    requires spaced { AreSpaced 0 (2 ^ 62) held.now.entries }
    requires from { from ≤ 2 ^ 62 }
    ensures { result ≡ chain_end from held.now.entries }
{
    let mut end = from;
    'chain: while let Some(frame) = held.get(&end) {
        end += frame.aligned_length();
    }
    end
}

/// Where the first held frame begins that begins past a position, else the other position.
pub fn next_start(held: &BTreeMap<u64, Frame>, position: u64, other: u64) -> u64
    requires { position < 2 ^ 63 }
    ensures { result ≡ next_start position other held.now.entries }
{
    match held.range(position + 1..).next() {
        Some((start, _)) => *start,
        None => other,
    }
}

/// Puts a frame in, at its position.
pub fn put(held: &mut BTreeMap<u64, Frame>, position: u64, frame: Frame) -> Result<(), Refusal>
    ensures entries { OnOk result
        (held.new.entries ≡ insert_entry nat_cmp held.old.entries position frame) }
    ensures memory { IfErr result (λ refusal. refusal ≡ NoMemory) }
    ensures same { OnErr result (held.new.entries ≡ held.old.entries) }
{
    match held.insert(position, frame) {
        Ok(_) => Ok(()),
        Err(_) => Err(Refusal::NoMemory),
    }
}

/// Takes frames out, the last position first.
pub fn withdraw(held: &mut BTreeMap<u64, Frame>, mut positions: Vec<u64>)
    ensures { held.new.entries ≡ without_positions positions.items held.old.entries }
{
    'each: while let Some(position) = positions.pop() {
        held.remove(&position);
    }
}
