//! Calls on types.

ghost use Rattle.asn_calls.specs.LentTypes.{constraints_row};
ghost use Rattle.asn_calls.specs.Types.{builtin_named, constraints_held, elsewhere, is_builtin, is_const, type_name, with_constraints};
ghost use Rattle.asn_tree_equality.specs.Making.{listed};
ghost use Rattle.asn_tree.specs.contracts.types.ASN1Type.{the_row};
ghost use Rattle.std.specs.Borrow.{LendsIf, sem};
ghost use Rattle.std.specs.Option.{option_copied, option_map, unwrap_or};
ghost use Rattle.std.specs.Prelude.{◌≡◌, IfOk, None, OnErr};

use crate::builtin::{builtin, elsewhere};
use crate::names::{name, words};
use asn_memory::{List, Mem, Text};
use asn_tree::{ASN1Type, Constraint};
use asn_tree_equality::listed;
use std::alloc::Global;

/// Calls on `ASN1Type`.
pub trait ASN1TypeCalls: Sized {
    /// What the type is called: the words of a built-in type's notation, a type reference's name, `option < Choice` for
    /// a selection, and for a class's field `ObjectField$`, the class, `$` and the fields' names with `$` between.
    fn as_str(&self, alloc: Global) -> Mem<Text>;

    /// Without a parent, for `NULL`, `BOOLEAN`, `REAL`, `INTEGER`, `BIT STRING`, `OCTET STRING`, `OBJECT IDENTIFIER`,
    /// `GeneralizedTime`, `UTCTime` and the words of the character string types, that type with the constraints, which
    /// NULL drops; else a type reference. Only a type reference needs memory.
    fn builtin_or_elsewhere(
        alloc: Global,
        parent: Option<&str>,
        identifier: &str,
        constraints: Option<List<Constraint>>,
    ) -> Mem<Self>;

    /// Whether the type is no plain name, no selection and no field of a class.
    fn is_builtin_type(&self) -> bool;

    /// Whether the type's values need no memory: NULL, BOOLEAN, INTEGER, REAL and ENUMERATED.
    fn is_const_type(&self) -> bool;

    /// The type's constraints; None for NULL, a selection, EMBEDDED PDV and EXTERNAL.
    fn constraints(&self) -> Option<&List<Constraint>>;

    /// The type's constraints, to be changed; None for NULL, a selection, EMBEDDED PDV and EXTERNAL.
    fn constraints_mut(&mut self) -> Option<&mut List<Constraint>>;
}

impl ASN1TypeCalls for ASN1Type {
    #[tactic(auto, unfolding(crate::specs::Types::type_name))]
    fn as_str(&self, alloc: Global) -> Mem<Text>
        ensures { IfOk result (λ text. text ≡ type_name self.now) }
    {
        match words(self) {
            Some(words) => Text::new(alloc, words),
            None => name(alloc, self),
        }
    }

    fn builtin_or_elsewhere(
        alloc: Global,
        parent: Option<&str>,
        identifier: &str,
        constraints: Option<List<Constraint>>,
    ) -> Mem<ASN1Type>
        ensures ok { IfOk result (λ ty. ty ≡ unwrap_or (builtin_named (option_copied parent.entry) identifier.now (listed constraints)) (elsewhere (option_copied parent.entry) identifier.now (listed constraints))) }
        ensures memory { OnErr result (builtin_named (option_copied parent.entry) identifier.now (listed constraints) ≡ None) }
    {
        let constraints = listed(alloc, constraints);
        if parent.is_some() {
            return elsewhere(alloc, parent, identifier, constraints);
        }
        match builtin(identifier, constraints) {
            Ok(ty) => Ok(ty),
            Err(constraints) => elsewhere(alloc, None, identifier, constraints),
        }
    }

    #[tactic(auto, unfolding(crate::specs::Types::is_builtin))]
    fn is_builtin_type(&self) -> bool
        ensures { result ≡ is_builtin self.now }
    {
        !matches!(
            self,
            ASN1Type::ElsewhereDeclaredType(_)
                | ASN1Type::ChoiceSelectionType(_)
                | ASN1Type::InformationObjectFieldReference(_)
        )
    }

    #[tactic(auto, unfolding(crate::specs::Types::is_const))]
    fn is_const_type(&self) -> bool
        ensures { result ≡ is_const self.now }
    {
        matches!(
            self,
            ASN1Type::Null
                | ASN1Type::Boolean(_)
                | ASN1Type::Integer(_)
                | ASN1Type::Real(_)
                | ASN1Type::Enumerated(_)
        )
    }

    #[tactic(auto, unfolding(crate::specs::Types::constraints_held))]
    fn constraints(&self) -> Option<&List<Constraint>>
        ensures { option_copied result ≡ constraints_held self.now }
    {
        match self {
            ASN1Type::Boolean(ty) => Some(&ty.constraints),
            ASN1Type::Integer(ty) => Some(&ty.constraints),
            ASN1Type::Real(ty) => Some(&ty.constraints),
            ASN1Type::BitString(ty) => Some(&ty.constraints),
            ASN1Type::OctetString(ty) => Some(&ty.constraints),
            ASN1Type::CharacterString(ty) => Some(&ty.constraints),
            ASN1Type::Enumerated(ty) => Some(&ty.constraints),
            ASN1Type::Choice(ty) => Some(&ty.constraints),
            ASN1Type::Sequence(ty) | ASN1Type::Set(ty) => Some(&ty.constraints),
            ASN1Type::SequenceOf(ty) | ASN1Type::SetOf(ty) => Some(&ty.constraints),
            ASN1Type::Time(ty) => Some(&ty.constraints),
            ASN1Type::GeneralizedTime(ty) => Some(&ty.constraints),
            ASN1Type::UTCTime(ty) => Some(&ty.constraints),
            ASN1Type::ElsewhereDeclaredType(ty) => Some(&ty.constraints),
            ASN1Type::ObjectIdentifier(ty) => Some(&ty.constraints),
            ASN1Type::InformationObjectFieldReference(ty) => Some(&ty.constraints),
            ASN1Type::Null
            | ASN1Type::ChoiceSelectionType(_)
            | ASN1Type::EmbeddedPdv
            | ASN1Type::External => None,
        }
    }

    #[tactic(auto, unfolding(crate::specs::Types::constraints_held, crate::specs::Types::with_constraints))]
    fn constraints_mut(&mut self) -> Option<&mut List<Constraint>>
        ensures* writes_back { sem 𝓛 (LendsIf the_row constraints_row self.entry result (with_constraints self.entry.now) self.entry.now) }
        ensures value { option_map (λ cs. cs.now) result ≡ constraints_held self.old }
    {
        match self {
            ASN1Type::Boolean(ty) => Some(&mut ty.constraints),
            ASN1Type::Integer(ty) => Some(&mut ty.constraints),
            ASN1Type::Real(ty) => Some(&mut ty.constraints),
            ASN1Type::BitString(ty) => Some(&mut ty.constraints),
            ASN1Type::OctetString(ty) => Some(&mut ty.constraints),
            ASN1Type::CharacterString(ty) => Some(&mut ty.constraints),
            ASN1Type::Enumerated(ty) => Some(&mut ty.constraints),
            ASN1Type::Choice(ty) => Some(&mut ty.constraints),
            ASN1Type::Sequence(ty) => Some(&mut ty.constraints),
            ASN1Type::SequenceOf(ty) => Some(&mut ty.constraints),
            ASN1Type::Set(ty) => Some(&mut ty.constraints),
            ASN1Type::SetOf(ty) => Some(&mut ty.constraints),
            ASN1Type::Time(ty) => Some(&mut ty.constraints),
            ASN1Type::GeneralizedTime(ty) => Some(&mut ty.constraints),
            ASN1Type::UTCTime(ty) => Some(&mut ty.constraints),
            ASN1Type::ElsewhereDeclaredType(ty) => Some(&mut ty.constraints),
            ASN1Type::ObjectIdentifier(ty) => Some(&mut ty.constraints),
            ASN1Type::InformationObjectFieldReference(ty) => Some(&mut ty.constraints),
            ASN1Type::Null
            | ASN1Type::ChoiceSelectionType(_)
            | ASN1Type::EmbeddedPdv
            | ASN1Type::External => None,
        }
    }
}
