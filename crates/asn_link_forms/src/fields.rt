//! The path of a class's field (X.681 14.1).

ghost use Rattle.asn_link_forms.specs.Forms.{ends_in_value, is_value_field};
ghost use Rattle.std.specs.Prelude.{◌≡◌};

use asn_tree::ObjectFieldIdentifier;

/// Whether a small letter follows the `&` (X.681 7.5).
fn is_value_field(step: &ObjectFieldIdentifier) -> bool
    ensures { result ≡ is_value_field step.now }
{
    match step {
        ObjectFieldIdentifier::SingleValue(_) => true,
        ObjectFieldIdentifier::MultipleValue(_) => false,
    }
}

/// Whether the last step is a value field.
pub(crate) fn ends_in_value(path: &[ObjectFieldIdentifier]) -> bool
    ensures { result ≡ ends_in_value path.now }
{
    let mut last = false;
    for step in path {
        last = is_value_field(step);
    }
    last
}
