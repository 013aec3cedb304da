//! The agents of a run. docs/ARCHITECTURE.md, "Agents".

use crate::receiver::Receiver;
use crate::recorder::Recorder;
use crate::replayer::Replayer;

/// Receivers, recorders, one for each receiver, and replayers.
#[derive(Drop)]
pub struct Agents<S, K> {
    /// Each hands its blocks to the recorder of its index.
    pub receivers: Vec<Receiver<S>>,
    /// Each records what the receiver of its index hands over.
    pub recorders: Vec<Recorder>,
    /// Each follows a slot, and hands on a replay.
    pub replayers: Vec<Replayer<K>>,
}
