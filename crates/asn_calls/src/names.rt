//! What types are called.

ghost use Rattle.asn_calls.specs.Types.{field_type_name, name_of, selection_name, words_of};
ghost use Rattle.std.specs.Option.{option_map};
ghost use Rattle.std.specs.Prelude.{◌≡◌, IfOk};

use crate::paths::InformationObjectFieldReferenceCalls;
use crate::strings::string_word;
use asn_memory::{Mem, Text};
use asn_tree::{
    ASN1Type, ChoiceSelectionType, INTERNAL_IO_FIELD_REF_TYPE_NAME_PREFIX,
    InformationObjectFieldReference,
};
use std::alloc::Global;

/// The words of the type's own notation; None for a type reference, a selection and a class's field.
pub(crate) fn words(ty: &ASN1Type) -> Option<&'static str>
    ensures { option_map (λ word. word.now) result ≡ words_of ty.now }
{
    match ty {
        ASN1Type::Null => Some("NULL"),
        ASN1Type::Boolean(_) => Some("BOOLEAN"),
        ASN1Type::Integer(_) => Some("INTEGER"),
        ASN1Type::Real(_) => Some("REAL"),
        ASN1Type::BitString(_) => Some("BIT STRING"),
        ASN1Type::OctetString(_) => Some("OCTET STRING"),
        ASN1Type::CharacterString(string) => Some(string_word(string.ty)),
        ASN1Type::Enumerated(_) => Some("ENUMERATED"),
        ASN1Type::Choice(_) => Some("CHOICE"),
        ASN1Type::Sequence(_) => Some("SEQUENCE"),
        ASN1Type::SequenceOf(_) => Some("SEQUENCE OF"),
        ASN1Type::Set(_) => Some("SET"),
        ASN1Type::SetOf(_) => Some("SET OF"),
        ASN1Type::Time(_) => Some("TIME"),
        ASN1Type::GeneralizedTime(_) => Some("GeneralizedTime"),
        ASN1Type::UTCTime(_) => Some("UTCTime"),
        ASN1Type::ObjectIdentifier(_) => Some("OBJECT IDENTIFIER"),
        ASN1Type::EmbeddedPdv => Some("EMBEDDED PDV"),
        ASN1Type::External => Some("EXTERNAL"),
        ASN1Type::ElsewhereDeclaredType(_)
        | ASN1Type::ChoiceSelectionType(_)
        | ASN1Type::InformationObjectFieldReference(_) => None,
    }
}

/// What a type without words of its own is called; empty for all others.
pub(crate) fn name(alloc: Global, ty: &ASN1Type) -> Mem<Text>
    ensures { IfOk result (λ text. text ≡ name_of ty.now) }
{
    match ty {
        ASN1Type::ElsewhereDeclaredType(reference) => {
            Text::new(alloc, reference.identifier.as_str())
        }
        ASN1Type::ChoiceSelectionType(selection) => selection_name(alloc, selection),
        ASN1Type::InformationObjectFieldReference(field) => field_type_name(alloc, field),
        _ => Text::new(alloc, ""),
    }
}

fn selection_name(alloc: Global, selection: &ChoiceSelectionType) -> Mem<Text>
    ensures { IfOk result (λ text. text ≡ selection_name selection.now) }
{
    let mut text = Text::new(alloc, selection.selected_option.as_str())?;
    text.push_str(" < ")?;
    text.push_str(selection.choice_name.as_str())?;
    Ok(text)
}

fn field_type_name(alloc: Global, field: &InformationObjectFieldReference) -> Mem<Text>
    ensures { IfOk result (λ text. text ≡ field_type_name field.now) }
{
    let path = field.field_path_as_str(alloc)?;
    let mut text = Text::new(alloc, INTERNAL_IO_FIELD_REF_TYPE_NAME_PREFIX)?;
    text.push_str(field.class.as_str())?;
    text.push_str("$")?;
    text.push_str(path.as_str())?;
    Ok(text)
}
