//! Values that are names (X.680 14.1).

ghost use Rattle.asn_link_forms.specs.Forms.{in_value, present};
ghost use Rattle.std.specs.Option.{option_map};
ghost use Rattle.std.specs.Prelude.{◌≡◌};

use crate::forms::{Form, is_reference};
use asn_tree::ASN1Value;

/// Whether the form is the value itself: a reference, where the value is a name. What a value holds is not looked into.
pub(crate) fn in_value(form: Form, value: &ASN1Value) -> bool
    ensures { result ≡ in_value form value.now }
{
    match value {
        ASN1Value::All => false,
        ASN1Value::Null => false,
        ASN1Value::Boolean(_) => false,
        ASN1Value::Choice { .. } => false,
        ASN1Value::SequenceOrSet(_) => false,
        ASN1Value::Integer(_) => false,
        ASN1Value::Real(_) => false,
        ASN1Value::String(_) => false,
        ASN1Value::BitString(_) => false,
        ASN1Value::BitStringNamedBits(_) => false,
        ASN1Value::OctetString(_) => false,
        ASN1Value::EnumeratedValue { .. } => is_reference(form),
        ASN1Value::Time(_) => false,
        ASN1Value::ElsewhereDeclaredValue { .. } => is_reference(form),
        ASN1Value::ObjectIdentifier(_) => false,
        ASN1Value::LinkedNestedValue { .. } => false,
        ASN1Value::LinkedIntValue { .. } => false,
        ASN1Value::LinkedStructLikeValue(_) => false,
        ASN1Value::LinkedArrayLikeValue(_) => false,
        ASN1Value::LinkedCharStringValue(_, _) => false,
        ASN1Value::LinkedElsewhereDefinedValue { .. } => false,
    }
}

/// Whether it is a default or an end of a range, where there is one.
pub(crate) fn in_optional_value(form: Form, value: &Option<ASN1Value>) -> bool
    ensures { result ≡ present (option_map (in_value form) value.now) }
{
    match value {
        None => false,
        Some(value) => in_value(form, value),
    }
}
