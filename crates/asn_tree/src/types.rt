//! Types (X.680 clause 17).

ghost use Rattle.asn_tree_kinds.specs.declared.types.DeclarationElsewhereOver.{DeclarationElsewhereOver};
ghost use Rattle.asn_tree.specs.declared.constraints.Constraint.{Constraint as OneConstraint};
ghost use Rattle.asn_tree.specs.declared.types.ASN1Type.TheVariants as type;
ghost use Rattle.std.specs.Prelude.{◌≡◌, IfErr, IfOk, OnErr};

use crate::constraints::Constraint;
use crate::objects::InformationObjectFieldReference;
use crate::values::ASN1Value;
use asn_memory::{Box, List, Text};
use asn_tree_headers::AsnTag;
use asn_tree_kinds::{
    BitStringOver, BooleanOver, CharacterStringOver, ChoiceSelectionType, DeclarationElsewhereOver,
    DistinguishedValue, EnumeratedOver, GeneralizedTimeOver, ObjectIdentifierOver, OctetStringOver,
    RealOver, TimeOver, UTCTimeOver,
};

/// A type.
#[cycle(tree)]
pub enum ASN1Type {
    /// NULL (X.680 24.1).
    Null,
    /// BOOLEAN (X.680 18.1).
    Boolean(Boolean),
    /// INTEGER (X.680 19.1).
    Integer(Integer),
    /// REAL (X.680 21.1).
    Real(Real),
    /// BIT STRING (X.680 22.1).
    BitString(BitString),
    /// OCTET STRING (X.680 23.1).
    OctetString(OctetString),
    /// A character string type (X.680 41.1).
    CharacterString(CharacterString),
    /// ENUMERATED (X.680 20.1).
    Enumerated(Enumerated),
    /// CHOICE (X.680 29.1).
    Choice(Choice),
    /// SEQUENCE (X.680 25.1).
    Sequence(SequenceOrSet),
    /// SEQUENCE OF (X.680 26.1).
    SequenceOf(SequenceOrSetOf),
    /// SET (X.680 27.1).
    Set(SequenceOrSet),
    /// SET OF (X.680 28.1).
    SetOf(SequenceOrSetOf),
    /// TIME (X.680 38.1).
    Time(Time),
    /// GeneralizedTime (X.680 46.1).
    GeneralizedTime(GeneralizedTime),
    /// UTCTime (X.680 47.1).
    UTCTime(UTCTime),
    /// A type reference (X.680 14.1).
    ElsewhereDeclaredType(DeclarationElsewhere),
    /// A selection type (X.680 30.1).
    ChoiceSelectionType(ChoiceSelectionType),
    /// OBJECT IDENTIFIER (X.680 32.1).
    ObjectIdentifier(ObjectIdentifier),
    /// The type of a class's field (X.681 14.1).
    InformationObjectFieldReference(InformationObjectFieldReference),
    /// EMBEDDED PDV (X.680 36.1).
    EmbeddedPdv,
    /// EXTERNAL (X.680 37.1).
    External,
}

impl Drop for ASN1Type {
    #[cycle(tree)]
    fn drop(self) {
        match self {
            ASN1Type::Null => (),
            ASN1Type::Boolean(_) => (),
            ASN1Type::Integer(_) => (),
            ASN1Type::Real(_) => (),
            ASN1Type::BitString(_) => (),
            ASN1Type::OctetString(_) => (),
            ASN1Type::CharacterString(_) => (),
            ASN1Type::Enumerated(_) => (),
            ASN1Type::Choice(_) => (),
            ASN1Type::Sequence(_) => (),
            ASN1Type::SequenceOf(_) => (),
            ASN1Type::Set(_) => (),
            ASN1Type::SetOf(_) => (),
            ASN1Type::Time(_) => (),
            ASN1Type::GeneralizedTime(_) => (),
            ASN1Type::UTCTime(_) => (),
            ASN1Type::ElsewhereDeclaredType(_) => (),
            ASN1Type::ChoiceSelectionType(_) => (),
            ASN1Type::ObjectIdentifier(_) => (),
            ASN1Type::InformationObjectFieldReference(_) => (),
            ASN1Type::EmbeddedPdv => (),
            ASN1Type::External => (),
        }
    }
}

impl ASN1Type {
    /// Takes the reference out, where the type is one (X.680 17.3); else hands the type back.
    pub fn into_reference(self) -> Result<DeclarationElsewhere, ASN1Type>
        ensures found { IfOk result (λ reference. self ≡ type.ElsewhereDeclaredType reference) }
        ensures returned { IfErr result (λ ty. ty ≡ self) }
        ensures none { OnErr result ((reference : DeclarationElsewhereOver OneConstraint) → self ≡ type.ElsewhereDeclaredType reference → ⊥) }
    {
        match self {
            ASN1Type::ElsewhereDeclaredType(reference) => Ok(reference),
            other => Err(other),
        }
    }
}

/// BOOLEAN over the constraints of this notation.
pub type Boolean = BooleanOver<Constraint>;

/// INTEGER with its constraints.
pub struct IntegerOver<C> {
    pub constraints: List<C>,
    /// The named numbers, where braces stand (X.680 19.1).
    pub distinguished_values: Option<List<DistinguishedValue>>,
}

impl<C: Drop> Drop for IntegerOver<C> {
    fn drop(self) {
        let IntegerOver {
            constraints: _,
            distinguished_values: _,
        } = self;
    }
}

/// INTEGER over the constraints of this notation.
pub type Integer = IntegerOver<Constraint>;

/// REAL over the constraints of this notation.
pub type Real = RealOver<Constraint>;

/// GeneralizedTime over the constraints of this notation.
pub type GeneralizedTime = GeneralizedTimeOver<Constraint>;

/// UTCTime over the constraints of this notation.
pub type UTCTime = UTCTimeOver<Constraint>;

/// OCTET STRING over the constraints of this notation.
pub type OctetString = OctetStringOver<Constraint>;

/// BIT STRING over the constraints of this notation.
pub type BitString = BitStringOver<Constraint>;

/// OBJECT IDENTIFIER over the constraints of this notation.
pub type ObjectIdentifier = ObjectIdentifierOver<Constraint>;

/// TIME over the constraints of this notation.
pub type Time = TimeOver<Constraint>;

/// A character string type over the constraints of this notation.
pub type CharacterString = CharacterStringOver<Constraint>;

/// ENUMERATED over the constraints of this notation.
pub type Enumerated = EnumeratedOver<Constraint>;

/// A type reference over the constraints of this notation.
pub type DeclarationElsewhere = DeclarationElsewhereOver<Constraint>;

/// SEQUENCE OF or SET OF (X.680 26.1, 28.1).
#[cycle(tree)]
pub struct SequenceOrSetOf {
    pub constraints: List<Constraint>,
    /// The type of its elements.
    pub element_type: Box<ASN1Type>,
    /// Whether the element's type leads back to the list.
    pub is_recursive: bool,
}

impl Drop for SequenceOrSetOf {
    #[cycle(tree)]
    fn drop(self) {
        let SequenceOrSetOf {
            constraints: _,
            element_type: _,
            is_recursive: _,
        } = self;
    }
}

/// SEQUENCE or SET (X.680 25.1, 27.1).
#[cycle(tree)]
pub struct SequenceOrSet {
    /// The names after `COMPONENTS OF`, in order.
    pub components_of: List<Text>,
    /// For each of these, how many members stand before it, and whether it stands among the additions.
    pub components_at: List<(usize, bool)>,
    /// How many members stand before the extension marker, where there is one.
    pub extensible: Option<usize>,
    pub constraints: List<Constraint>,
    /// The members in order.
    pub members: List<SequenceOrSetMember>,
}

impl Drop for SequenceOrSet {
    #[cycle(tree)]
    fn drop(self) {
        let SequenceOrSet {
            components_of: _,
            components_at: _,
            extensible: _,
            constraints: _,
            members: _,
        } = self;
    }
}

/// A component of a SEQUENCE or SET as it is written (X.680 25.1).
#[derive(Drop)]
pub enum SequenceComponent {
    Member(SequenceOrSetMember),
    /// The name after `COMPONENTS OF`.
    ComponentsOf(Text),
}

/// A member of a SEQUENCE or SET (X.680 25.1).
#[cycle(tree)]
pub struct SequenceOrSetMember {
    pub name: Text,
    pub tag: Option<AsnTag>,
    pub ty: ASN1Type,
    pub default_value: Option<ASN1Value>,
    /// Whether OPTIONAL or DEFAULT stands.
    pub is_optional: bool,
    /// Whether the member's type leads back to the SEQUENCE or SET.
    pub is_recursive: bool,
    /// The constraints written after the member's type, where they are the member's own.
    pub constraints: List<Constraint>,
}

impl Drop for SequenceOrSetMember {
    #[cycle(tree)]
    fn drop(self) {
        let SequenceOrSetMember {
            name: _,
            tag: _,
            ty: _,
            default_value: _,
            is_optional: _,
            is_recursive: _,
            constraints: _,
        } = self;
    }
}

/// CHOICE (X.680 29.1).
#[cycle(tree)]
pub struct Choice {
    /// How many options stand before the extension marker, where there is one.
    pub extensible: Option<usize>,
    /// The options in order.
    pub options: List<ChoiceOption>,
    pub constraints: List<Constraint>,
}

impl Drop for Choice {
    #[cycle(tree)]
    fn drop(self) {
        let Choice {
            extensible: _,
            options: _,
            constraints: _,
        } = self;
    }
}

/// An option of a CHOICE (X.680 29.1).
#[cycle(tree)]
pub struct ChoiceOption {
    pub name: Text,
    pub tag: Option<AsnTag>,
    pub ty: ASN1Type,
    /// The constraints written after the option's type, where they are the option's own.
    pub constraints: List<Constraint>,
    /// Whether the option's type leads back to the CHOICE.
    pub is_recursive: bool,
}

impl Drop for ChoiceOption {
    #[cycle(tree)]
    fn drop(self) {
        let ChoiceOption {
            name: _,
            tag: _,
            ty: _,
            constraints: _,
            is_recursive: _,
        } = self;
    }
}
