//! What a recorder of a shared archive holds: its seat, a replayer that another recorder's slot holds back, and the end that
//! datagrams come from.
#![tactic(auto)]

mod bench;
mod bounded;
mod datagram_end;
pub mod laws;
mod poll;
mod seat;

pub use bench::{BenchSeat, RecorderBench};
pub use bounded::{BoundedReplayer, Turn};
pub use datagram_end::DatagramEnd;
pub use poll::polled;
pub use seat::RecorderSeat;
