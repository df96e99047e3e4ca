//! Laws: what is read of a text of characters is its bytes, and what the rule of blanks takes, bytes tell as blanks too.

ghost use Rattle.asn_read_nodes.specs.Exact.{BlanksAreThoseOfBytes, NamesAreExact, QuotedBytesAreExact, QuotedCharactersAreExact, TimesAreExact};

use asn_rules::children_at_characters;

/// A name that begins and ends between two characters is its bytes: none is replaced.
pub fn names_are_exact()
    ensures { NamesAreExact }
{
    children_at_characters();
}

/// A time that begins between two characters is its bytes: none is replaced.
pub fn times_are_exact()
    ensures { TimesAreExact }
{
    children_at_characters();
}

/// A text in quotes that begins between two characters is what stands between its quotes with each doubled quote made
/// single (X.680 12.14): no byte is replaced, and no character.
pub fn quoted_are_exact()
    ensures bytes { QuotedBytesAreExact }
    ensures characters { QuotedCharactersAreExact }
{
    children_at_characters();
}

/// What the rule of blanks and comments takes, `next_bare` passes over too (X.680 12.1.6 and 12.6): it finds the same before
/// what was taken as behind it. Not the other way round: of a `/*` that is not closed the rule takes nothing, and `next_bare`
/// passes to the end.
pub fn blanks_are_those_of_bytes()
    ensures { BlanksAreThoseOfBytes }
{}
