//! Laws of the calls, each the contract of a function without a body.

ghost use Rattle.asn_calls.specs.Laws.{AdmittedIsHeld, EarlierIsLeast, FlatSyntax, NameTypesInOrder};

/// `max_restrictive` gives one of its arguments, the least in its order; a type whose numbers are all another's does not come
/// behind it.
pub fn max_restrictive_is_least()
    ensures { EarlierIsLeast }
{}

/// Each whole number that all constraints of an INTEGER accept lies in the range of `int_type`.
pub fn int_type_holds_what_is_admitted()
    ensures { AdmittedIsHeld }
{}

/// `flatten` lists the tokens of a syntax and nothing else, in order, with true exactly at those in no group.
pub fn flat_syntax_has_the_tokens()
    ensures { FlatSyntax }
{}

/// The iterator of `iter_name_types` gives all names and types in order, and then None.
pub fn name_types_come_in_order()
    ensures { NameTypesInOrder }
{}
