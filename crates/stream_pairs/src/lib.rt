//! Which image of a publication feeds which recorder session.
#![tactic(auto)]

pub mod laws;
mod pairs;
mod places;
mod points;

pub use pairs::{
    FED_SESSIONS, ImageNumber, JoinedImage, MAX_IMAGES, Pairs, Place, Seat, SessionSlot,
};
pub use places::{PlaceUse, Rank, first_yielding};
pub use points::StreamPoint;
