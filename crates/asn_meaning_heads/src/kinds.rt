//! Types as they are met, and what their values are made of.

ghost use Rattle.asn_meaning_heads.specs.Kinds.{shown_kind, shown_reference, shown_type};
ghost use Rattle.asn_meaning.specs.Kinds.{kind_of_type};
ghost use Rattle.std.specs.Prelude.{◌≡◌};

use asn_memory::{List, Text};
use asn_tree::{
    ASN1Type, CharacterStringType, ChoiceOption, ChoiceSelectionType, DeclarationElsewhere,
    DistinguishedValue, Enumeral, InformationObjectFieldReference, SequenceOrSet,
};

/// A type reference: one of a tree, or a name with nothing behind it.
#[derive(Clone, Copy)]
pub enum Reference<'a> {
    Written(&'a DeclarationElsewhere),
    Named(&'a Text),
}

/// A type: one of a tree, or one that meaning speaks of and no tree holds.
#[derive(Clone, Copy)]
pub enum TypeForm<'a> {
    Written(&'a ASN1Type),
    /// A type reference.
    Reference(Reference<'a>),
    /// NULL.
    Null,
    /// UTF8String without constraints.
    Utf8String,
    /// OBJECT IDENTIFIER without constraints.
    ObjectIdentifier,
    /// INTEGER without constraints, with these named numbers.
    Integer(Option<&'a List<DistinguishedValue>>),
}

/// What the values of a type are made of, its constraints aside.
#[derive(Clone, Copy)]
pub enum Kind<'a> {
    Null,
    Boolean,
    /// With the named numbers, where there are braces (X.680 19.1).
    Integer(Option<&'a List<DistinguishedValue>>),
    Real,
    /// With the named bits, where there are braces (X.680 22.1).
    BitString(Option<&'a List<DistinguishedValue>>),
    OctetString,
    CharacterString(CharacterStringType),
    /// TIME, GeneralizedTime and UTCTime (X.680 38, 46, 47).
    Time,
    Enumerated(&'a List<Enumeral>),
    ObjectIdentifier,
    /// EMBEDDED PDV and EXTERNAL (X.680 36, 37).
    Opaque,
    /// SEQUENCE and SET (X.680 25, 27).
    Struct(&'a SequenceOrSet),
    /// SEQUENCE OF and SET OF, with the type of the elements (X.680 26, 28).
    List(&'a ASN1Type),
    Choice(&'a List<ChoiceOption>),
    /// The type of a class's field (X.681 14).
    Field(&'a InformationObjectFieldReference),
    Reference(Reference<'a>),
    /// The type of an alternative (X.680 30).
    Selection(&'a ChoiceSelectionType),
}

/// The kind of a type of a tree.
pub fn kind_of_tree<'a>(ty: &'a ASN1Type) -> Kind<'a>
    ensures { shown_kind result ≡ kind_of_type ty.now }
{
    match ty {
        ASN1Type::Null => Kind::Null,
        ASN1Type::Boolean(_) => Kind::Boolean,
        ASN1Type::Integer(x) => Kind::Integer(x.distinguished_values.as_ref()),
        ASN1Type::Real(_) => Kind::Real,
        ASN1Type::BitString(x) => Kind::BitString(x.distinguished_values.as_ref()),
        ASN1Type::OctetString(_) => Kind::OctetString,
        ASN1Type::CharacterString(x) => Kind::CharacterString(x.ty),
        ASN1Type::Enumerated(x) => Kind::Enumerated(&x.members),
        ASN1Type::Choice(x) => Kind::Choice(&x.options),
        ASN1Type::Sequence(x) => Kind::Struct(x),
        ASN1Type::SequenceOf(x) => Kind::List(x.element_type.get()),
        ASN1Type::Set(x) => Kind::Struct(x),
        ASN1Type::SetOf(x) => Kind::List(x.element_type.get()),
        ASN1Type::Time(_) => Kind::Time,
        ASN1Type::GeneralizedTime(_) => Kind::Time,
        ASN1Type::UTCTime(_) => Kind::Time,
        ASN1Type::ElsewhereDeclaredType(x) => Kind::Reference(Reference::Written(x)),
        ASN1Type::ChoiceSelectionType(x) => Kind::Selection(x),
        ASN1Type::ObjectIdentifier(_) => Kind::ObjectIdentifier,
        ASN1Type::InformationObjectFieldReference(x) => Kind::Field(x),
        ASN1Type::EmbeddedPdv => Kind::Opaque,
        ASN1Type::External => Kind::Opaque,
    }
}

/// The kind of a type.
pub fn kind_of<'a>(ty: TypeForm<'a>) -> Kind<'a>
    ensures { shown_kind result ≡ kind_of_type (shown_type ty.entry) }
{
    match ty {
        TypeForm::Written(ty) => kind_of_tree(ty),
        TypeForm::Reference(reference) => Kind::Reference(reference),
        TypeForm::Null => Kind::Null,
        TypeForm::Utf8String => Kind::CharacterString(CharacterStringType::UTF8String),
        TypeForm::ObjectIdentifier => Kind::ObjectIdentifier,
        TypeForm::Integer(numbers) => Kind::Integer(numbers),
    }
}
