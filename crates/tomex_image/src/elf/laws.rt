//! A law of the definitions, for readers.
ghost use Rattle.std.specs.Prelude.{ℕ, List};
ghost use Rattle.std.specs.List.{All};
ghost use Rattle.tomex_image.specs.Image.{Loaded};
ghost use Rattle.tomex_image.specs.ProgramHeader.{segments_of};
ghost use Rattle.tomex_image.specs.Standing.{IsElfImage, IsZeroOutside, StandsIn};
ghost use Rattle.tomex_image.specs.Window.{Span};

/// A law: in the image of an ELF file that is not refused, each segment is at its address, the
/// bytes that the file holds of it first and zeros after them, and each byte of the window outside
/// all segments is zero. So the order in which segments are placed doesn't matter, which is what
/// the overlap test is for. The function does nothing: its contract is the law.
#[tactic(auto, using(crate::proofs::Standing::segments_stand, crate::proofs::Standing::rest_is_zero))]
pub fn segments_stand_at_their_addresses()
    ensures segments { (bytes : List ℕ) (window : Span) (image : Loaded)
        → IsElfImage bytes window image
        → All (StandsIn bytes image) (segments_of bytes) }
    ensures rest { (bytes : List ℕ) (window : Span) (image : Loaded) → IsElfImage bytes window image
        → IsZeroOutside (segments_of bytes) image }
{}
