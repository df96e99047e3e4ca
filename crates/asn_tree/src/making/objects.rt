//! Making information object classes, objects and object sets.

ghost use Rattle.asn_tree_leaves.specs.Syntax.{name_of_field};
ghost use Rattle.std.specs.Prelude.{◌≡◌};

use crate::objects::{
    FixedValueField, InformationObjectClass, InformationObjectClassField, InformationObjectField,
    ObjectSet, ObjectSetField, TypeField,
};
use crate::types::ASN1Type;
use crate::values::ASN1Value;
use asn_memory::List;
use asn_tree_leaves::{
    InformationObjectSyntax, ObjectFieldIdentifier, OptionalMarker, SyntaxExpression,
};

/// The class with these fields, and with this syntax where one is given.
impl From<
    (
        List<InformationObjectClassField>,
        Option<List<SyntaxExpression>>,
    ),
> for InformationObjectClass {
    ghost use Rattle.std.specs.Prelude.{◌≡◌};
    ghost use Rattle.asn_tree.specs.MakingObjects.{class_of};

    ghost from_gives = { λ parts class. class ≡ class_of parts.0 parts.1 };

    fn from(
        parts: (
            List<InformationObjectClassField>,
            Option<List<SyntaxExpression>>,
        ),
    ) -> InformationObjectClass {
        let (fields, expressions) = parts;
        let syntax = match expressions {
            Some(expressions) => Some(InformationObjectSyntax { expressions }),
            None => None,
        };
        InformationObjectClass { fields, syntax }
    }
}

/// The field of a class: its name, its type, and which of UNIQUE, OPTIONAL and DEFAULT stand.
impl From<
    (
        ObjectFieldIdentifier,
        Option<ASN1Type>,
        Option<&str>,
        Option<OptionalMarker>,
        Option<ASN1Value>,
    ),
> for InformationObjectClassField {
    ghost use Rattle.std.specs.Prelude.{◌≡◌, is_some, ◌||◌};

    ghost from_gives = { λ parts field. field ≡ record {
      identifier = parts.0;
      ty = parts.1;
      is_optional = is_some parts.3 || is_some parts.4;
      default = parts.4;
      is_unique = is_some parts.2;
    } };

    fn from(
        parts: (
            ObjectFieldIdentifier,
            Option<ASN1Type>,
            Option<&str>,
            Option<OptionalMarker>,
            Option<ASN1Value>,
        ),
    ) -> InformationObjectClassField {
        let (identifier, ty, unique, optional, default) = parts;
        InformationObjectClassField {
            identifier,
            ty,
            is_optional: optional.is_some() || default.is_some(),
            default,
            is_unique: unique.is_some(),
        }
    }
}

/// The field of that name that is the value.
impl From<(ObjectFieldIdentifier, ASN1Value)> for InformationObjectField {
    ghost use Rattle.std.specs.Prelude.{◌≡◌};
    ghost use Rattle.asn_tree.specs.declared.objects.InformationObjectField.TheVariants.{FixedValueField};

    ghost from_gives = { λ parts field. field ≡ FixedValueField (record {
      identifier = name_of_field parts.0;
      value = parts.1;
    }) };

    fn from(parts: (ObjectFieldIdentifier, ASN1Value)) -> InformationObjectField {
        let (identifier, value) = parts;
        InformationObjectField::FixedValueField(FixedValueField {
            identifier: identifier.into_name(),
            value,
        })
    }
}

/// The field of that name that is the type.
impl From<(ObjectFieldIdentifier, ASN1Type)> for InformationObjectField {
    ghost use Rattle.std.specs.Prelude.{◌≡◌};
    ghost use Rattle.asn_tree.specs.declared.objects.InformationObjectField.TheVariants.{TypeField};

    ghost from_gives = { λ parts field. field ≡ TypeField (record {
      identifier = name_of_field parts.0;
      ty = parts.1;
    }) };

    fn from(parts: (ObjectFieldIdentifier, ASN1Type)) -> InformationObjectField {
        let (identifier, ty) = parts;
        InformationObjectField::TypeField(TypeField {
            identifier: identifier.into_name(),
            ty,
        })
    }
}

/// The field of that name that is the object set.
impl From<(ObjectFieldIdentifier, ObjectSet)> for InformationObjectField {
    ghost use Rattle.std.specs.Prelude.{◌≡◌};
    ghost use Rattle.asn_tree.specs.declared.objects.InformationObjectField.TheVariants.{ObjectSetField};

    ghost from_gives = { λ parts field. field ≡ ObjectSetField (record {
      identifier = name_of_field parts.0;
      value = parts.1;
    }) };

    fn from(parts: (ObjectFieldIdentifier, ObjectSet)) -> InformationObjectField {
        let (identifier, value) = parts;
        InformationObjectField::ObjectSetField(ObjectSetField {
            identifier: identifier.into_name(),
            value,
        })
    }
}
