//! Equality of headers and of object identifiers.

ghost use Rattle.asn_tree_equality.specs.Equality.{IsEquality, same_by, same_by-laws};
ghost use Rattle.std.specs.Prelude.{◌≡◌, ◌↔◌, IsTrue};

use crate::headers::{
    AsnTag, AssignedIdentifier, DefinitiveIdentifier, EncodingReferenceDefault, Exports,
    ExtensibilityEnvironment, ExternalValueReference, GlobalModuleReference, Import,
    ModuleReference, ObjectIdentifierArc, ObjectIdentifierValue, TagClass, TaggingEnvironment,
    With,
};
use asn_tree_equality::{SameTree, same};

impl SameTree for ModuleReference {
    fn is_same(&self, other: &Self) -> bool {
        self.name.is_same(&other.name)
            && self.module_identifier.is_same(&other.module_identifier)
            && self
                .encoding_reference_default
                .is_same(&other.encoding_reference_default)
            && self.tagging_environment == other.tagging_environment
            && self.extensibility_environment == other.extensibility_environment
            && self.imports.is_same(&other.imports)
            && self.exports.is_same(&other.exports)
    }
}

impl PartialEq for ModuleReference {
    ghost use Rattle.asn_tree_headers.specs.contracts.headers.ModuleReference.{the_row};

    ghost eq = { same_by the_row.coded };

    ghost laws = { same_by-laws the_row.coded };

    fn eq(&self, other: &Self) -> bool
        ensures equal { IsTrue result ↔ (self.now ≡ other.now) }
        ensures gives { result ≡ same_by the_row.coded self.now other.now }
    {
        same(self, other)
    }
}

impl SameTree for DefinitiveIdentifier {
    fn is_same(&self, other: &Self) -> bool {
        match (self, other) {
            (
                DefinitiveIdentifier::DefinitiveOID(left),
                DefinitiveIdentifier::DefinitiveOID(right),
            ) => left.is_same(right),
            (
                DefinitiveIdentifier::DefinitiveOIDandIRI {
                    oid: left_oid,
                    iri: left_iri,
                },
                DefinitiveIdentifier::DefinitiveOIDandIRI {
                    oid: right_oid,
                    iri: right_iri,
                },
            ) => left_oid.is_same(right_oid) && left_iri.is_same(right_iri),
            _ => false,
        }
    }
}

impl PartialEq for DefinitiveIdentifier {
    ghost use Rattle.asn_tree_headers.specs.contracts.headers.DefinitiveIdentifier.{the_row};

    ghost eq = { same_by the_row.coded };

    ghost laws = { same_by-laws the_row.coded };

    fn eq(&self, other: &Self) -> bool
        ensures equal { IsTrue result ↔ (self.now ≡ other.now) }
        ensures gives { result ≡ same_by the_row.coded self.now other.now }
    {
        same(self, other)
    }
}

impl SameTree for EncodingReferenceDefault {
    fn is_same(&self, other: &Self) -> bool {
        self.0.is_same(&other.0)
    }
}

impl PartialEq for EncodingReferenceDefault {
    ghost use Rattle.asn_tree_headers.specs.contracts.headers.EncodingReferenceDefault.{the_row};

    ghost eq = { same_by the_row.coded };

    ghost laws = { same_by-laws the_row.coded };

    fn eq(&self, other: &Self) -> bool
        ensures equal { IsTrue result ↔ (self.now ≡ other.now) }
        ensures gives { result ≡ same_by the_row.coded self.now other.now }
    {
        same(self, other)
    }
}

impl SameTree for Import {
    fn is_same(&self, other: &Self) -> bool {
        self.types.is_same(&other.types)
            && self
                .global_module_reference
                .is_same(&other.global_module_reference)
            && self.with == other.with
    }
}

impl PartialEq for Import {
    ghost use Rattle.asn_tree_headers.specs.contracts.headers.Import.{the_row};

    ghost eq = { same_by the_row.coded };

    ghost laws = { same_by-laws the_row.coded };

    fn eq(&self, other: &Self) -> bool
        ensures equal { IsTrue result ↔ (self.now ≡ other.now) }
        ensures gives { result ≡ same_by the_row.coded self.now other.now }
    {
        same(self, other)
    }
}

impl SameTree for GlobalModuleReference {
    fn is_same(&self, other: &Self) -> bool {
        self.module_reference.is_same(&other.module_reference)
            && self.assigned_identifier.is_same(&other.assigned_identifier)
    }
}

impl PartialEq for GlobalModuleReference {
    ghost use Rattle.asn_tree_headers.specs.contracts.headers.GlobalModuleReference.{the_row};

    ghost eq = { same_by the_row.coded };

    ghost laws = { same_by-laws the_row.coded };

    fn eq(&self, other: &Self) -> bool
        ensures equal { IsTrue result ↔ (self.now ≡ other.now) }
        ensures gives { result ≡ same_by the_row.coded self.now other.now }
    {
        same(self, other)
    }
}

impl SameTree for AssignedIdentifier {
    fn is_same(&self, other: &Self) -> bool {
        match (self, other) {
            (
                AssignedIdentifier::ObjectIdentifierValue(left),
                AssignedIdentifier::ObjectIdentifierValue(right),
            ) => left.is_same(right),
            (
                AssignedIdentifier::ExternalValueReference(left),
                AssignedIdentifier::ExternalValueReference(right),
            ) => left.is_same(right),
            (AssignedIdentifier::ValueReference(left), AssignedIdentifier::ValueReference(right)) =>
                left.is_same(right),
            (
                AssignedIdentifier::ParameterizedValue {
                    value_reference: left_value_reference,
                    actual_parameter_list: left_actual_parameter_list,
                },
                AssignedIdentifier::ParameterizedValue {
                    value_reference: right_value_reference,
                    actual_parameter_list: right_actual_parameter_list,
                },
            ) => left_value_reference.is_same(right_value_reference)
                && left_actual_parameter_list.is_same(right_actual_parameter_list),
            (AssignedIdentifier::Empty, AssignedIdentifier::Empty) => true,
            _ => false,
        }
    }
}

impl PartialEq for AssignedIdentifier {
    ghost use Rattle.asn_tree_headers.specs.contracts.headers.AssignedIdentifier.{the_row};

    ghost eq = { same_by the_row.coded };

    ghost laws = { same_by-laws the_row.coded };

    fn eq(&self, other: &Self) -> bool
        ensures equal { IsTrue result ↔ (self.now ≡ other.now) }
        ensures gives { result ≡ same_by the_row.coded self.now other.now }
    {
        same(self, other)
    }
}

impl SameTree for ExternalValueReference {
    fn is_same(&self, other: &Self) -> bool {
        self.module_reference.is_same(&other.module_reference)
            && self.value_reference.is_same(&other.value_reference)
    }
}

impl PartialEq for ExternalValueReference {
    ghost use Rattle.asn_tree_headers.specs.contracts.headers.ExternalValueReference.{the_row};

    ghost eq = { same_by the_row.coded };

    ghost laws = { same_by-laws the_row.coded };

    fn eq(&self, other: &Self) -> bool
        ensures equal { IsTrue result ↔ (self.now ≡ other.now) }
        ensures gives { result ≡ same_by the_row.coded self.now other.now }
    {
        same(self, other)
    }
}

impl SameTree for Exports {
    fn is_same(&self, other: &Self) -> bool {
        match (self, other) {
            (Exports::Identifier(left), Exports::Identifier(right)) => left.is_same(right),
            (Exports::All, Exports::All) => true,
            _ => false,
        }
    }
}

impl PartialEq for Exports {
    ghost use Rattle.asn_tree_headers.specs.contracts.headers.Exports.{the_row};

    ghost eq = { same_by the_row.coded };

    ghost laws = { same_by-laws the_row.coded };

    fn eq(&self, other: &Self) -> bool
        ensures equal { IsTrue result ↔ (self.now ≡ other.now) }
        ensures gives { result ≡ same_by the_row.coded self.now other.now }
    {
        same(self, other)
    }
}

impl SameTree for ObjectIdentifierValue {
    fn is_same(&self, other: &Self) -> bool {
        self.0.is_same(&other.0)
    }
}

impl PartialEq for ObjectIdentifierValue {
    ghost use Rattle.asn_tree_headers.specs.contracts.headers.ObjectIdentifierValue.{the_row};

    ghost eq = { same_by the_row.coded };

    ghost laws = { same_by-laws the_row.coded };

    fn eq(&self, other: &Self) -> bool
        ensures equal { IsTrue result ↔ (self.now ≡ other.now) }
        ensures gives { result ≡ same_by the_row.coded self.now other.now }
    {
        same(self, other)
    }
}

impl SameTree for ObjectIdentifierArc {
    fn is_same(&self, other: &Self) -> bool {
        self.name.is_same(&other.name) && self.number == other.number
    }
}

impl PartialEq for ObjectIdentifierArc {
    ghost use Rattle.asn_tree_headers.specs.contracts.headers.ObjectIdentifierArc.{the_row};

    ghost eq = { same_by the_row.coded };

    ghost laws = { same_by-laws the_row.coded };

    fn eq(&self, other: &Self) -> bool
        ensures equal { IsTrue result ↔ (self.now ≡ other.now) }
        ensures gives { result ≡ same_by the_row.coded self.now other.now }
    {
        same(self, other)
    }
}

/// The law of `==` of marks and tags, which is derived: each is true exactly where both are equal.
pub fn equal_marks()
    ensures tagging { IsEquality ⟦<TaggingEnvironment as PartialEq>⟧.eq }
    ensures extensibility { IsEquality ⟦<ExtensibilityEnvironment as PartialEq>⟧.eq }
    ensures with { IsEquality ⟦<With as PartialEq>⟧.eq }
    ensures tag_class { IsEquality ⟦<TagClass as PartialEq>⟧.eq }
    ensures tag { IsEquality ⟦<AsnTag as PartialEq>⟧.eq }
{}
