//! Laws: the items of an ENUMERATED that its nodes tell are those that its bytes tell, and their numbers fit.

ghost use Rattle.asn_read_nodes.specs.Enumerals.{EnumeratedNumbersFit, ItemsAreThoseOfBytes};

/// The items of an ENUMERATED by the nodes of its derivation, those before the extension marker and those behind it, are the
/// items that its guard tells by the bytes (X.680 clause 20).
pub fn items_are_those_of_bytes()
    ensures { ItemsAreThoseOfBytes }
{}

/// So no number that the standard gives the items of a node of ENUMERATED passes 128 bits: `enumerate` gives them all.
pub fn enumerated_numbers_fit()
    ensures { EnumeratedNumbersFit }
{}
