//! Values that are literals of their own type.

ghost use Rattle.asn_meaning_heads.specs.Kinds.{shown_kind};
ghost use Rattle.asn_meaning_heads.specs.Written.{shown_written};
ghost use Rattle.asn_meaning.specs.Kinds.{kind_of_type};
ghost use Rattle.asn_meaning.specs.Written.{as_written};
ghost use Rattle.asn_names.specs.Literals.{is_own_literal, literal_form, takes};
ghost use Rattle.std.specs.Prelude.{◌≡◌};

use asn_meaning_heads::{Kind, Written, as_written, kind_of_tree};
use asn_names::LiteralForm;
use asn_tree::{ASN1Type, ASN1Value, ToplevelValueDefinition};

/// The form in which a value is written.
fn form_of(written: Written<'_>) -> LiteralForm
    ensures { result ≡ literal_form (shown_written written.entry) }
{
    match written {
        Written::Null => LiteralForm::Null,
        Written::Truth(_) => LiteralForm::Truth,
        Written::Number(_) => LiteralForm::Number,
        Written::Bits(_) => LiteralForm::Bits,
        Written::Octets(_) => LiteralForm::Octets,
        Written::Text(_) => LiteralForm::Text,
        Written::All => LiteralForm::Other,
        Written::Real(_) => LiteralForm::Other,
        Written::BitNames(_) => LiteralForm::Other,
        Written::Arcs(_) => LiteralForm::Other,
        Written::Item(_) => LiteralForm::Other,
        Written::Name { .. } => LiteralForm::Other,
        Written::Braces(_) => LiteralForm::Other,
        Written::Fields(_) => LiteralForm::Other,
        Written::Elements(_) => LiteralForm::Other,
        Written::Alternative { .. } => LiteralForm::Other,
        Written::Nested(_) => LiteralForm::Other,
    }
}

/// Whether a type of this kind, which is no name, takes literals of this form.
fn takes(kind: Kind<'_>, form: LiteralForm) -> bool
    ensures { result ≡ takes (shown_kind kind.entry) form }
{
    match kind {
        Kind::Null => matches!(form, LiteralForm::Null),
        Kind::Boolean => matches!(form, LiteralForm::Truth),
        Kind::Integer(_) => matches!(form, LiteralForm::Number),
        Kind::BitString(_) => matches!(form, LiteralForm::Bits),
        Kind::OctetString => matches!(form, LiteralForm::Octets),
        Kind::CharacterString(_) => matches!(form, LiteralForm::Text),
        Kind::Real => false,
        Kind::Time => false,
        Kind::Enumerated(_) => false,
        Kind::ObjectIdentifier => false,
        Kind::Opaque => false,
        Kind::Struct(_) => false,
        Kind::List(_) => false,
        Kind::Choice(_) => false,
        Kind::Field(_) => false,
        Kind::Reference(_) => false,
        Kind::Selection(_) => false,
    }
}

/// Whether a value is a literal of a type that is no name.
fn is_literal_of(value: &ASN1Value, ty: &ASN1Type) -> bool
    ensures { result ≡ takes (kind_of_type ty.now) (literal_form (as_written value.now)) }
{
    takes(kind_of_tree(ty), form_of(as_written(value)))
}

/// Whether the value of a definition without parameters is a literal of its type, which is no name.
pub(crate) fn is_own_literal(definition: &ToplevelValueDefinition) -> bool
    ensures { result ≡ is_own_literal definition.now }
{
    if definition.parameterization.is_none() {
        is_literal_of(&definition.value, &definition.associated_type)
    } else {
        false
    }
}
