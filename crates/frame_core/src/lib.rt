//! Frames of the Aeron transport as bytes and as values, their positions in a stream, and the refusals that all
//! crates answer with.
#![tactic(auto)]

mod block;
mod codec;
mod datagram;
mod fields;
mod frame;
mod geometry;
mod items;
pub mod laws;
pub mod limits;
mod nak;
mod positions;
mod refusal;
mod replay_end;
mod segments;
mod setup;
mod status;

pub use block::{
    Block, BlockIds, Publication, are_encodable, block_end, block_ids, block_of, is_next,
};
pub use codec::{decode_front, decode_header, encode_into};
pub use datagram::frames_of_datagram;
pub use fields::{read_i32, read_i64, read_u16};
pub use frame::{Frame, FrameKind, FrameRef};
pub use geometry::Geometry;
pub use items::Items;
pub use nak::Nak;
pub use positions::{position, term_of};
pub use refusal::Refusal;
pub use replay_end::{is_replay_done, replay_bound};
pub use segments::segment_base;
pub use setup::Setup;
pub use status::StatusMessage;
