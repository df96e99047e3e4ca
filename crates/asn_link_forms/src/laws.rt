//! Laws of the forms, each the contract of a function without a body of its own.

ghost use Rattle.asn_link_forms.specs.Laws.{PlainIsFree};

/// No selection and no COMPONENTS OF stands in a type in plain form outside contents and tables, over any definitions.
pub fn plain_is_free()
    ensures { PlainIsFree }
{}
