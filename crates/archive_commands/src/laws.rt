//! Laws of the definitions, each the contract of a function that does nothing.

ghost use Rattle.std.specs.Prelude.{◌≡◌, ℕ, List};
ghost use Rattle.archive_commands.specs.FrameLines.{IsListing};
ghost use Rattle.archive_commands.specs.declared.frames.Listing.{Listing};

/// The bytes of a file alone determine its listing.
#[tactic(auto, using(crate::proofs::ListingLemmas::one_listing))]
pub fn a_file_has_one_listing()
    ensures { (bytes : List ℕ) (listing other : Listing) (text also : List ℕ)
        → IsListing listing bytes text → IsListing other bytes also
        → (listing ≡ other) × (text ≡ also) }
{}
