//! Marks that a reader has found and that hold nothing else.
//!
//! It stands on the standard library alone. The lexical readers answer these marks, and the trees' constructors take
//! them, so that neither room has to know the other.
ghost use Rattle.std.specs.Bool.{Decides};
ghost use Rattle.std.specs.Prelude.{◌≡◌};

/// The word `OPTIONAL` (X.680 25.1).
#[derive(Clone, Copy, Debug, PartialEq, Eq)]
pub struct OptionalMarker();

/// The two dots of a range (X.680 51.4).
#[derive(Clone, Copy, Debug)]
pub struct RangeSeperator();

/// The three dots of an extension (X.680 3.8.41).
#[derive(Clone, Copy, Debug, PartialEq, Eq)]
pub struct ExtensionMarker();

/// The law of `==` of marks: each is true exactly where both are equal.
pub fn equal_markers()
    ensures optional { (x y : OptionalMarker) → Decides (⟦<OptionalMarker as PartialEq>⟧.eq x y) (x ≡ y) }
    ensures extension { (x y : ExtensionMarker) → Decides (⟦<ExtensionMarker as PartialEq>⟧.eq x y) (x ≡ y) }
{}

impl From<&str> for OptionalMarker {
    fn from(_: &str) -> OptionalMarker {
        OptionalMarker()
    }
}
