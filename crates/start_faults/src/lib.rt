//! Which word of a line `start` or `start-from` breaks its rule: docs/SERVING.md, "If `start` is `error 10 BadParameter`".
#![tactic(auto)]

pub mod laws;
mod word;
mod wrong;

pub use word::StartWord;
pub use wrong::wrong_word;
