//! Laws of what linking leaves as it is, each the contract of a function without a body of its own.

ghost use Rattle.asn_meaning_unchanged.specs.Laws.{UnchangedIsPlain};

/// A type that linking leaves as it is is in plain form, over any definitions.
pub fn unchanged_is_plain()
    ensures { UnchangedIsPlain }
{}
