//! Laws of the definitions, each the contract of a function that does nothing.

ghost use Rattle.std.specs.Prelude.{◌≡◌, ◌<◌, ◌≤◌, ◌^◌, ◌++◌, ℕ, ℤ, pos, true, List, Some, length, take, slice_index, FitsSigned};
ghost use Rattle.std.specs.Int.{w32};
ghost use Rattle.frame_core.specs.Block.{AreBlock};
ghost use Rattle.frame_core.specs.Datagram.{IsBadAt, IsDatagram};
ghost use Rattle.frame_core.specs.FrameEncoding.{IsEncodable, IsHeader, Fits, aligned_length, encoded, header_of, i32_at, stored};
ghost use Rattle.frame_core.specs.Front.{IsFront, used_by};
ghost use Rattle.frame_core.specs.Limits.{is_term_length};
ghost use Rattle.frame_core.specs.Nak.{HasRange, IsNak, NakFits, encoded_nak};
ghost use Rattle.frame_core.specs.Position.{HasPosition, position_of};
ghost use Rattle.frame_core.specs.Setup.{HasJoinPosition, IsSetup};
ghost use Rattle.frame_core.specs.Status.{IsStatus, MayStand, StatusFits, encoded_status};
ghost use Rattle.frame_core.specs.declared.frame.Frame.{Frame};
ghost use Rattle.frame_core.specs.declared.frame.FrameKind.TheVariants.{Message};
ghost use Rattle.frame_core.specs.declared.geometry.Geometry.{Geometry};
ghost use Rattle.frame_core.specs.declared.nak.Nak.{Nak};
ghost use Rattle.frame_core.specs.declared.setup.Setup.{Setup};
ghost use Rattle.frame_core.specs.declared.status.StatusMessage.{StatusMessage};

/// The bytes alone determine the frame in front of them, and how many of them it uses.
pub fn one_frame_in_front()
    ensures { (bytes : List ℕ) (f g : Frame) (m n : ℕ)
        → IsFront bytes f m → IsFront bytes g n → (f ≡ g) × (m ≡ n) }
{}

/// An encoding is read as its frame, whatever follows it; a message uses its aligned length where so much is there, and
/// so does what a segment file holds of it.
pub fn an_encoding_is_read_as_its_frame()
    ensures any { (f : Frame) (rest : List ℕ) → IsEncodable f →
        IsFront (encoded f ++ rest) f
        (used_by f.kind (length (encoded f)) (length (encoded f ++ rest))) }
    ensures message { (f : Frame) (rest : List ℕ) → IsEncodable f → f.kind ≡ Message
        → aligned_length f ≤ length (encoded f ++ rest)
        → IsFront (encoded f ++ rest) f (aligned_length f) }
    ensures stored { (f : Frame) (rest : List ℕ) → IsEncodable f → f.kind ≡ Message
        → IsFront (stored f ++ rest) f (aligned_length f) }
{}

/// An encoding begins with a header that has each field at its offset in the standard's table, and those fields
/// determine the header's 32 bytes. Aeron Transport Protocol Specification, "Data Frame".
pub fn an_encoding_begins_with_its_header()
    ensures fields { (f : Frame) (rest : List ℕ) → IsEncodable f → IsHeader (encoded f ++ rest) f }
    ensures bytes { (bytes : List ℕ) (f : Frame) → ((k : ℕ) → slice_index bytes k < 256)
        → IsHeader bytes f → take 32 bytes ≡ header_of f }
{}

/// Some bytes are one datagram, or are bad at one offset.
pub fn a_datagram_has_one_answer()
    ensures list { (bytes : List ℕ) (fs gs : List Frame)
        → IsDatagram bytes fs → IsDatagram bytes gs → fs ≡ gs }
    ensures offset { (bytes : List ℕ) (m n : ℕ) → IsBadAt bytes m → IsBadAt bytes n → m ≡ n }
    ensures apart { (bytes : List ℕ) (fs : List Frame) (n : ℕ)
        → IsDatagram bytes fs → IsBadAt bytes n → ⊥ }
{}

/// The function that gives positions gives each that an offset in a term has, and no other.
pub fn a_position_is_what_its_function_gives()
    ensures given { (g : Geometry) (term offset : ℤ) (n : ℕ)
        → position_of g term offset ≡ Some n → HasPosition g term offset (pos n) }
    ensures all { (g : Geometry) (term offset p : ℤ) → HasPosition g term offset p
        → (n : ℕ) × (position_of g term offset ≡ Some n) × (p ≡ pos n) }
{}

/// A term and an offset have one position, and a position has one term id and one offset.
pub fn positions_and_terms_are_inverse()
    ensures position { (g : Geometry) (term offset p q : ℤ)
        → HasPosition g term offset p → HasPosition g term offset q → p ≡ q }
    ensures term { (g : Geometry) (term other offset other_offset p : ℤ)
        → FitsSigned w32 term → FitsSigned w32 other
        → HasPosition g term offset p → HasPosition g other other_offset p
        → (term ≡ other) × (offset ≡ other_offset) }
{}

/// Frames are a block at one position at most.
pub fn a_block_has_one_position()
    ensures { (g : Geometry) (fs : List Frame) (p q : ℤ)
        → AreBlock g fs p → AreBlock g fs q → p ≡ q }
{}

/// The term lengths are the fifteen powers of two from 2^16 to 2^30. docs/CONTROL.md, "Limits".
pub fn term_lengths_are_powers_of_two()
    ensures powers { (z : ℤ) → is_term_length z ≡ true
        → (k : ℕ) × (16 ≤ k) × (k ≤ 30) × (z ≡ pos (2 ^ k)) }
    ensures all { (z : ℤ) (k : ℕ) → 16 ≤ k → k ≤ 30 → z ≡ pos (2 ^ k) → is_term_length z ≡ true }
{}

/// The bytes alone determine the setup frame in front of them, and it has one join position.
pub fn one_setup_in_front()
    ensures frame { (bytes : List ℕ) (s t : Setup)
        → IsSetup bytes s → IsSetup bytes t → s ≡ t }
    ensures position { (s : Setup) (p q : ℤ)
        → HasJoinPosition s p → HasJoinPosition s q → p ≡ q }
{}

/// The bytes alone determine the NAK frame in front of them.
pub fn one_nak_in_front()
    ensures { (bytes : List ℕ) (m n : Nak) → IsNak bytes m → IsNak bytes n → m ≡ n }
{}

/// A NAK that was encoded is read as it, whatever follows; and the 28 bytes that are read as it, with the flags 0, are
/// its encoding. Aeron Transport Protocol Specification, "NAK Frame".
pub fn an_encoded_nak_is_read_as_it()
    ensures read { (n : Nak) (rest : List ℕ) → NakFits n → HasRange n
        → IsNak (encoded_nak n ++ rest) n }
    ensures bytes { (bytes : List ℕ) (n : Nak) → ((k : ℕ) → slice_index bytes k < 256)
        → IsNak bytes n → slice_index bytes 5 ≡ 0 → take 28 bytes ≡ encoded_nak n }
{}

/// The bytes alone determine the status message at their beginning.
pub fn one_status_in_front()
    ensures { (bytes : List ℕ) (s t : StatusMessage) → IsStatus bytes s → IsStatus bytes t → s ≡ t }
{}

/// A status message that was encoded is read as it, whatever follows; and 36 bytes that are read as it, without feedback of
/// an application, are its encoding. Aeron Transport Protocol Specification, "Status Message Frame".
pub fn an_encoded_status_is_read_as_it()
    ensures read { (s : StatusMessage) (rest : List ℕ) → StatusFits s → MayStand s
        → IsStatus (encoded_status s ++ rest) s }
    ensures bytes { (bytes : List ℕ) (s : StatusMessage) → ((k : ℕ) → slice_index bytes k < 256)
        → IsStatus bytes s → i32_at bytes 0 ≡ pos 36 → take 36 bytes ≡ encoded_status s }
{}
