//! Images: what a receiver knows of one publication, whose datagrams come lost, repeated, overlapping and hostile; and
//! images that hold nothing past their stock.
#![tactic(auto)]

mod bounded;
mod fate;
mod gaps;
mod held;
mod image;
mod inserted;
mod joining;
pub mod laws;
mod nearness;
mod repairs;
mod requests;
mod taking;

pub use bounded::BoundedImage;
pub use image::Image;
pub use inserted::Inserted;
pub use nearness::STOCK;
pub use repairs::repair;
