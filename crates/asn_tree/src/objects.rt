//! Information object classes, objects and object sets (X.681).

use crate::constraints::Constraint;
use crate::types::{ASN1Type, DeclarationElsewhere};
use crate::values::ASN1Value;
use asn_memory::{List, Text};
use asn_tree_kinds::{
    FixedValueFieldOver, InformationObjectFieldReferenceOver, ObjectSetFieldOver, ObjectSetOver,
    ObjectSetValueOver, TypeFieldOver,
};
use asn_tree_leaves::{InformationObjectSyntax, ObjectFieldIdentifier};

/// The class of an object or an object set.
pub enum ClassLink {
    /// The class's name.
    ByName(Text),
    /// The class's name and the class itself.
    ByReference(Text, InformationObjectClass),
}

impl Drop for ClassLink {
    fn drop(self) {
        match self {
            ClassLink::ByName(_) => (),
            ClassLink::ByReference(_, _) => (),
        }
    }
}

/// What an information definition defines.
pub enum ASN1Information {
    /// A class (X.681 9.1).
    ObjectClass(InformationObjectClass),
    /// An object set (X.681 12.1).
    ObjectSet(ObjectSet),
    /// An object (X.681 11.1).
    Object(InformationObject),
}

impl Drop for ASN1Information {
    fn drop(self) {
        match self {
            ASN1Information::ObjectClass(_) => (),
            ASN1Information::ObjectSet(_) => (),
            ASN1Information::Object(_) => (),
        }
    }
}

/// An item of an object in its class's own syntax (X.681 11.6).
#[cycle(tree)]
pub enum SyntaxApplication {
    ObjectSetDeclaration(ObjectSet),
    ValueReference(ASN1Value),
    TypeReference(ASN1Type),
    Comma,
    /// A word in capital letters.
    Literal(Text),
    /// A word that may be one of the syntax or the name of a type.
    LiteralOrTypeReference(DeclarationElsewhere),
}

impl Drop for SyntaxApplication {
    #[cycle(tree)]
    fn drop(self) {
        match self {
            SyntaxApplication::ObjectSetDeclaration(_) => (),
            SyntaxApplication::ValueReference(_) => (),
            SyntaxApplication::TypeReference(_) => (),
            SyntaxApplication::Comma => (),
            SyntaxApplication::Literal(_) => (),
            SyntaxApplication::LiteralOrTypeReference(_) => (),
        }
    }
}

/// A class (X.681 9.3).
pub struct InformationObjectClass {
    /// Its fields in order.
    pub fields: List<InformationObjectClassField>,
    /// The syntax after WITH SYNTAX, where it stands.
    pub syntax: Option<InformationObjectSyntax>,
}

impl Drop for InformationObjectClass {
    fn drop(self) {
        let InformationObjectClass {
            fields: _,
            syntax: _,
        } = self;
    }
}

/// A field of a class (X.681 9.4).
pub struct InformationObjectClassField {
    pub identifier: ObjectFieldIdentifier,
    /// The type of a value field, or the class of an object or object set field.
    pub ty: Option<ASN1Type>,
    /// Whether OPTIONAL or DEFAULT stands.
    pub is_optional: bool,
    pub default: Option<ASN1Value>,
    /// Whether UNIQUE stands.
    pub is_unique: bool,
}

impl Drop for InformationObjectClassField {
    fn drop(self) {
        let InformationObjectClassField {
            identifier: _,
            ty: _,
            is_optional: _,
            default: _,
            is_unique: _,
        } = self;
    }
}

/// An object of a class (X.681 11.3).
pub struct InformationObject {
    pub class_name: Text,
    pub fields: InformationObjectFields,
}

impl Drop for InformationObject {
    fn drop(self) {
        let InformationObject {
            class_name: _,
            fields: _,
        } = self;
    }
}

/// How an object gives its fields (X.681 11.4).
#[cycle(tree)]
pub enum InformationObjectFields {
    /// Each by its name (X.681 11.5).
    DefaultSyntax(List<InformationObjectField>),
    /// In the class's own syntax (X.681 11.6).
    CustomSyntax(List<SyntaxApplication>),
}

impl Drop for InformationObjectFields {
    #[cycle(tree)]
    fn drop(self) {
        match self {
            InformationObjectFields::DefaultSyntax(_) => (),
            InformationObjectFields::CustomSyntax(_) => (),
        }
    }
}

/// An item of an object set over the object fields of this notation.
pub type ObjectSetValue = ObjectSetValueOver<InformationObjectFields>;

/// An object set over the object fields of this notation.
pub type ObjectSet = ObjectSetOver<InformationObjectFields>;

/// A field that an object gives (X.681 11.5).
#[cycle(tree)]
pub enum InformationObjectField {
    TypeField(TypeField),
    FixedValueField(FixedValueField),
    ObjectSetField(ObjectSetField),
}

impl Drop for InformationObjectField {
    #[cycle(tree)]
    fn drop(self) {
        match self {
            InformationObjectField::TypeField(_) => (),
            InformationObjectField::FixedValueField(_) => (),
            InformationObjectField::ObjectSetField(_) => (),
        }
    }
}

/// A field that is a value of this notation.
pub type FixedValueField = FixedValueFieldOver<ASN1Value>;

/// A field that is a type of this notation.
pub type TypeField = TypeFieldOver<ASN1Type>;

/// A field that is an object set of this notation.
pub type ObjectSetField = ObjectSetFieldOver<InformationObjectFields>;

/// The type of a class's field over the constraints of this notation.
pub type InformationObjectFieldReference = InformationObjectFieldReferenceOver<Constraint>;
