//! The fields of classes, and the types that they have (X.681 9, 14).

ghost use Rattle.asn_tree_notation.specs.Paths.{field_name};
ghost use Rattle.asn_meaning_heads.specs.Classes.{field_ty, kind_names_class, path_type, shown_field_type, type_in_class};
ghost use Rattle.asn_names_index.specs.Classes.{shown_class};
ghost use Rattle.asn_meaning_heads.specs.Kinds.{shown_kind, shown_reference, shown_type};
ghost use Rattle.asn_meaning_heads.specs.Scopes.{shown};
ghost use Rattle.asn_meaning.specs.Names.{class_field_type, fixed_or_open};
ghost use Rattle.asn_meaning.specs.Objects.{field_of};
ghost use Rattle.std.specs.Option.{option_copied, option_map};
ghost use Rattle.std.specs.Prelude.{◌≡◌, ◌&&◌, is_none, None};
ghost use Rattle.asn_meaning.specs.Definitions.{is_class};

use crate::kinds::{Kind, Reference, TypeForm, kind_of};
use crate::scopes::Scope;
use asn_memory::Text;
use asn_names_index::{Class, Names};
use asn_tree::{
    InformationObjectClass, InformationObjectClassField, InformationObjectFieldReference,
    ObjectFieldIdentifier,
};

/// What the type of a class's field is (X.681 14.2).
#[derive(Clone, Copy)]
pub enum FieldType<'a> {
    /// An open type.
    Open,
    /// The type that the field fixes.
    Fixed(TypeForm<'a>),
}

/// The name of a field with its `&`.
fn name_of_field(field: &ObjectFieldIdentifier) -> &Text
    ensures { result.now ≡ field_name field.now }
{
    match field {
        ObjectFieldIdentifier::SingleValue(name) => name,
        ObjectFieldIdentifier::MultipleValue(name) => name,
    }
}

/// The first field of a class of a tree by its name with its `&`.
#[tactic(auto, using(crate::proofs::Fields::find_first))]
pub fn written_field<'a>(
    class: &'a InformationObjectClass,
    name: &str,
) -> Option<&'a InformationObjectClassField>
    ensures { option_copied result ≡ field_of class.now name.now }
{
    for field in class.fields.as_slice() {
        if name_of_field(&field.identifier).as_str() == name {
            return Some(field);
        }
    }
    None
}

/// The type of a class's field by its name with its `&`, where the class has the field and where the field has a type
/// (X.681 9.4).
#[tactic(auto, using(crate::proofs::Fields::built_in_value, crate::proofs::Fields::built_in_type, crate::proofs::Fields::built_in_none))]
pub fn field_type<'a>(class: Class<'a>, name: &str) -> Option<Option<TypeForm<'a>>>
    ensures { option_map (option_map shown_type) result ≡ option_map field_ty (field_of (shown_class class.entry) name.now) }
{
    match class {
        Class::Written(class) => match written_field(class, name) {
            None => None,
            Some(field) => match &field.ty {
                None => Some(None),
                Some(ty) => Some(Some(TypeForm::Written(ty))),
            },
        },
        Class::TypeIdentifier => {
            if "&id" == name {
                return Some(Some(TypeForm::ObjectIdentifier));
            }
            if "&Type" == name {
                return Some(None);
            }
            None
        }
    }
}

/// Whether the reference is a plain name of a class.
fn reference_names_class(names: &Names<'_>, reference: Reference<'_>) -> bool
    ensures { result ≡ (is_none (shown_reference reference.entry).parent && is_class names.now.definitions.now (shown_reference reference.entry).identifier) }
{
    match reference {
        Reference::Written(reference) => {
            reference.parent.is_none() && names.is_class(reference.identifier.as_str())
        }
        Reference::Named(name) => names.is_class(name.as_str()),
    }
}

/// Whether a type of the kind is a plain name of a class.
fn names_class(names: &Names<'_>, kind: Kind<'_>) -> bool
    ensures { result ≡ kind_names_class names.now.definitions.now (shown_kind kind.entry) }
{
    match kind {
        Kind::Reference(reference) => reference_names_class(names, reference),
        Kind::Null => false,
        Kind::Boolean => false,
        Kind::Integer(_) => false,
        Kind::Real => false,
        Kind::BitString(_) => false,
        Kind::OctetString => false,
        Kind::CharacterString(_) => false,
        Kind::Time => false,
        Kind::Enumerated(_) => false,
        Kind::ObjectIdentifier => false,
        Kind::Opaque => false,
        Kind::Struct(_) => false,
        Kind::List(_) => false,
        Kind::Choice(_) => false,
        Kind::Field(_) => false,
        Kind::Selection(_) => false,
    }
}

/// What a field's type is: a class's name is no type, and a field without a type is open.
#[tactic(auto, using(crate::proofs::Fields::fixed_by_kind))]
fn fixed_or_open<'a>(names: &Names<'_>, ty: Option<TypeForm<'a>>) -> Option<FieldType<'a>>
    ensures { option_map shown_field_type result ≡ fixed_or_open names.now.definitions.now (option_map shown_type ty.entry) }
{
    match ty {
        None => Some(FieldType::Open),
        Some(ty) => {
            if names_class(names, kind_of(ty)) {
                None
            } else {
                Some(FieldType::Fixed(ty))
            }
        }
    }
}

/// What the type of a class's field is, by the field's name with its `&` (X.681 14.2). None where the class has no such field, and
/// where the field's type is a class's name.
#[tactic(auto, using(crate::proofs::Fields::no_such_field, crate::proofs::Fields::such_field))]
pub fn type_in_class<'a>(names: &Names<'_>, class: Class<'a>, name: &str) -> Option<FieldType<'a>>
    ensures { option_map shown_field_type result ≡ type_in_class names.now.definitions.now (shown_class class.entry) name.now }
{
    let ty = field_type(class, name)?;
    fixed_or_open(names, ty)
}

/// The type of the field that a path ends at, where each of its names is a field of this class, and where that field
/// has a type (X.681 14.2).
#[tactic(auto, using(crate::proofs::Fields::path_next))]
fn path_field_type<'a>(
    class: Class<'a>,
    path: &[ObjectFieldIdentifier],
) -> Option<Option<TypeForm<'a>>>
    ensures { option_map (option_map shown_type) result ≡ path_type (shown_class class.entry) None path.now }
{
    let mut so_far = None;
    for field in path {
        match field_type(class, name_of_field(field).as_str()) {
            None => return None,
            Some(ty) => so_far = Some(ty),
        }
    }
    so_far
}

/// `C.&f`: the type of a class's field (X.681 14.1). None where the class is a dummy or missing, where the path names no
/// field, and where the field's type is a class's name.
#[tactic(auto, using(crate::proofs::Fields::dummy_class, crate::proofs::Fields::missing_class, crate::proofs::Fields::missing_path, crate::proofs::Fields::path_found))]
pub fn class_field_type<'a>(
    names: &Names<'a>,
    scope: &Scope<'a>,
    reference: &InformationObjectFieldReference,
) -> Option<FieldType<'a>>
    ensures { option_map shown_field_type result ≡ class_field_type names.now.definitions.now (shown scope.now) reference.now }
{
    if scope.bound_to(reference.class.as_str()).is_some() {
        return None;
    }
    let class = names.class_named(reference.class.as_str())?;
    let ty = path_field_type(class, reference.field_path.as_slice())?;
    fixed_or_open(names, ty)
}
