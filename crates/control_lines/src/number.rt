//! Words of a control line that are numbers, bytes or texts. docs/CONTROL.md, "Words".

ghost use Rattle.std.specs.Prelude.{false, true};
ghost use Rattle.control_lines.specs.Lines.{Reads};
ghost use Rattle.control_lines.specs.Numbers.{long_of, int_of, hex_bytes_of, plain_of};

use crate::hex_digits::decode_over;
use archive_model::SourceIdentity;
use frame_core::{Items, Refusal};
use std::alloc::Global;

/// The number that a word is, or `BadLine`.
#[tactic(auto, unfolding(crate::specs::Numbers::long_of))]
pub(crate) fn long(word: &str) -> Result<i64, Refusal>
    ensures { Reads false (λ z. z) result (long_of word.now) }
{
    let Ok(value) = word.parse::<i64>() else {
        return Err(Refusal::BadLine);
    };
    if itoa::Buffer::new().format(value) == word {
        Ok(value)
    } else {
        Err(Refusal::BadLine)
    }
}

/// The number of 32 bits that a word is, or `BadLine`.
#[tactic(auto, unfolding(crate::specs::Numbers::int_of))]
pub(crate) fn int(word: &str) -> Result<i32, Refusal>
    ensures { Reads false (λ z. z) result (int_of word.now) }
{
    i32::try_from(long(word)?).map_err(|_| Refusal::BadLine)
}

/// The bytes whose hex digits a text is: `BadLine` where it is empty or no hex, or `NoMemory`.
#[tactic(auto, unfolding(crate::specs::Numbers::hex_bytes_of))]
pub(crate) fn bytes(alloc: Global, text: &str) -> Result<Items<u8>, Refusal>
    ensures { Reads true (λ x. x) result (hex_bytes_of text.now) }
{
    if text.is_empty() {
        return Err(Refusal::BadLine);
    }
    if text.len() % 2 != 0 {
        return Err(Refusal::BadLine);
    }
    let mut bytes = vec![in alloc; 0; text.len() / 2]?;
    if decode_over(text.as_bytes(), bytes.as_mut_slice()) {
        Ok(Items::from_vec(bytes))
    } else {
        Err(Refusal::BadLine)
    }
}

/// The source that a word is: `BadLine` where it is empty, or `NoMemory`.
#[tactic(auto, unfolding(crate::specs::Numbers::plain_of))]
pub(crate) fn plain(alloc: Global, word: &str) -> Result<SourceIdentity, Refusal>
    ensures { Reads true (λ x. x) result (plain_of word.now) }
{
    if word.is_empty() {
        return Err(Refusal::BadLine);
    }
    Ok(SourceIdentity::new(String::from_str(alloc, word)?))
}
