//! What stands at a place.

use asn_meaning_heads::{GivenField, Place, Scope, TypeForm, ValueForm};
use asn_memory::{Box, List, Text};
use asn_names_index::Class;
use asn_tree::{
    ConstrainedComponent, Constraint, ElementOrSetOperation, InformationObjectClassField,
    InformationObjectField, InformationObjectFields, ObjectSet, Parameter,
    ParameterizationArgument, SubtypeElement,
};

/// Where a type stands.
#[derive(Clone, Copy)]
pub enum TypePlace {
    /// At the head of a definition's type or of a contained subtype.
    AtHead,
    /// As the own type of a class's field, where a class stands too.
    OfField,
    /// As the own type of a class's field that is taken by itself.
    AtHeadOfField,
    /// In another place.
    InPlace,
}

/// Where a value stands.
#[derive(Clone, Copy)]
pub enum ValuePlace {
    /// As such.
    AsSuch,
    /// As an end of a range of values.
    AsEnd,
    /// As an end of a range of lengths or characters.
    AsBound,
    /// As a single value of a constraint.
    AsSingle,
    /// In another value.
    Inside,
}

/// What the elements of a constraint are asked of.
#[derive(Clone, Copy)]
pub enum Asked {
    /// Values.
    OfValues,
    /// Lengths, behind SIZE.
    OfLengths,
    /// Characters, behind FROM.
    OfCharacters,
}

/// A field of a class: one of a tree, or one of the built-in TYPE-IDENTIFIER (X.681 A.2).
#[derive(Clone, Copy)]
pub enum ClassFieldForm<'a> {
    Written(&'a InformationObjectClassField),
    /// `&id`.
    Identifier,
    /// `&Type`.
    IdentifiedType,
}

/// An object set: one of a tree, or one that a value in braces stands for.
#[derive(Clone, Copy)]
pub enum SetForm<'a> {
    Written(&'a ObjectSet),
    /// The set of the one reference.
    Named(&'a Text),
    /// `{}`.
    Nothing,
}

/// A constraint on a type.
#[derive(Drop)]
pub struct OnConstraint<'a> {
    pub constraint: &'a Constraint,
    pub place: Option<Place<'a>>,
}

/// A set of values of a type.
#[derive(Drop)]
pub struct OnSet<'a> {
    pub set: &'a ElementOrSetOperation,
    pub place: Option<Place<'a>>,
}

/// An element of a set of values of a type.
#[derive(Drop)]
pub struct OnElement<'a> {
    pub element: &'a SubtypeElement,
    pub place: Option<Place<'a>>,
}

/// What stands at a place. A type that governs is None where the constrained type has no such part, or is not known.
#[derive(Drop)]
pub enum Form<'a> {
    /// A type, and the constraints of its place.
    AType(TypePlace, TypeForm<'a>, Option<&'a List<Constraint>>),
    /// The name behind COMPONENTS OF.
    ComponentsOf(&'a Text),
    AValue(ValuePlace, ValueForm<'a>, Option<Box<Place<'a>>>),
    AConstraint(Box<OnConstraint<'a>>),
    ASet(Asked, Box<OnSet<'a>>),
    AnElement(Asked, Box<OnElement<'a>>),
    /// A component that WITH COMPONENTS lists, with the constrained type.
    AListed(&'a ConstrainedComponent, Option<Box<Place<'a>>>),
    /// An argument list where no template stands, or a second one.
    LooseList,
    /// An argument for a dummy of a template, whose governor is read in the scope of the template.
    AnArgument(&'a Parameter, &'a ParameterizationArgument, Box<Scope<'a>>),
    /// A dummy for which no argument stands.
    NoArgument,
    /// An argument beyond the parameters, or in a list on no template.
    LooseArgument(&'a Parameter),
    /// A dummy of a template with its governor.
    ADummy(&'a ParameterizationArgument),
    /// The name of the class of an object or a set.
    ClassName(&'a Text),
    ClassField(TypePlace, ClassFieldForm<'a>),
    /// An object of a class, where there is one.
    AnObject(Option<Class<'a>>, &'a InformationObjectFields),
    /// A field of such an object, or of one whose class is not asked.
    AGivenField(Option<Class<'a>>, GivenField<'a>),
    LooseField(&'a InformationObjectField),
    AnObjectSet(Option<Class<'a>>, SetForm<'a>),
    /// The name of an object or a set.
    SetName(&'a Text),
}
