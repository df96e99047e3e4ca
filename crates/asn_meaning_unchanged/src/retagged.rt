//! Laws of what does not look at tags, each the contract of a function without a body of its own.

ghost use Rattle.asn_meaning_unchanged.specs.Retagged.{RetaggedNamesAreTheSame, RetaggedStay};

/// Whether linking leaves a definition as it is does not go by tags.
pub fn retagged_stay()
    ensures { RetaggedStay }
{}

/// The type references of a definition do not go by tags.
pub fn retagged_names_are_the_same()
    ensures { RetaggedNamesAreTheSame }
{}
