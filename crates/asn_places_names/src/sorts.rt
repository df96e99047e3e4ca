//! Kinds of definitions, and which needs they serve.

ghost use Rattle.asn_needs.specs.Occurrences.{information_sort, parameters_of, sort_of, takes, OfClasses, OfObjects, OfSets, OfTypes, OfValues};
ghost use Rattle.asn_places_names.specs.Occurrences.{shown_need};
ghost use Rattle.asn_places_names.specs.inner.Sorts.{shown_sort};
ghost use Rattle.std.specs.Prelude.{◌≡◌, is_some};

use crate::needs::Need;
use asn_tree::{ASN1Information, ToplevelDefinition};

/// Of what kind a definition is.
#[derive(Clone, Copy)]
pub(crate) enum Sort {
    Types,
    Values,
    Classes,
    Objects,
    Sets,
}

/// What a definition of a class, an object or a set defines.
fn information_sort(information: &ASN1Information) -> Sort
    ensures { shown_sort result ≡ information_sort information.now }
{
    match information {
        ASN1Information::ObjectClass(_) => Sort::Classes,
        ASN1Information::ObjectSet(_) => Sort::Sets,
        ASN1Information::Object(_) => Sort::Objects,
    }
}

/// What a definition defines.
pub(crate) fn sort_of(definition: &ToplevelDefinition) -> Sort
    ensures { shown_sort result ≡ sort_of definition.now }
{
    match definition {
        ToplevelDefinition::TypeDef(_) => Sort::Types,
        ToplevelDefinition::Value(_) => Sort::Values,
        ToplevelDefinition::Information(definition) => information_sort(&definition.value),
    }
}

/// Whether a definition has parameters (X.683 8.2).
pub(crate) fn is_template(definition: &ToplevelDefinition) -> bool
    ensures { result ≡ is_some (parameters_of definition.now) }
{
    match definition {
        ToplevelDefinition::TypeDef(definition) => definition.parameterization.is_some(),
        ToplevelDefinition::Value(definition) => definition.parameterization.is_some(),
        ToplevelDefinition::Information(definition) => definition.parameterization.is_some(),
    }
}

/// Whether a type serves the need.
fn takes_type(need: Need) -> bool
    ensures { result ≡ takes (shown_need need) OfTypes }
{
    match need {
        Need::NeedsType => true,
        Need::NeedsTypeOrClass => true,
        Need::NeedsChoice => true,
        Need::NeedsComponents => true,
        Need::NeedsValue => false,
        Need::NeedsClass => false,
        Need::NeedsObject => false,
        Need::NeedsObjectOrSet => false,
        Need::NeedsValueOrObject => false,
        Need::NeedsAny => true,
    }
}

/// Whether a value serves the need.
fn takes_value(need: Need) -> bool
    ensures { result ≡ takes (shown_need need) OfValues }
{
    match need {
        Need::NeedsType => false,
        Need::NeedsTypeOrClass => false,
        Need::NeedsChoice => false,
        Need::NeedsComponents => false,
        Need::NeedsValue => true,
        Need::NeedsClass => false,
        Need::NeedsObject => false,
        Need::NeedsObjectOrSet => false,
        Need::NeedsValueOrObject => true,
        Need::NeedsAny => true,
    }
}

/// Whether a class serves the need.
fn takes_class(need: Need) -> bool
    ensures { result ≡ takes (shown_need need) OfClasses }
{
    match need {
        Need::NeedsType => false,
        Need::NeedsTypeOrClass => true,
        Need::NeedsChoice => false,
        Need::NeedsComponents => false,
        Need::NeedsValue => false,
        Need::NeedsClass => true,
        Need::NeedsObject => false,
        Need::NeedsObjectOrSet => false,
        Need::NeedsValueOrObject => false,
        Need::NeedsAny => true,
    }
}

/// Whether an object serves the need.
fn takes_object(need: Need) -> bool
    ensures { result ≡ takes (shown_need need) OfObjects }
{
    match need {
        Need::NeedsType => false,
        Need::NeedsTypeOrClass => false,
        Need::NeedsChoice => false,
        Need::NeedsComponents => false,
        Need::NeedsValue => false,
        Need::NeedsClass => false,
        Need::NeedsObject => true,
        Need::NeedsObjectOrSet => true,
        Need::NeedsValueOrObject => true,
        Need::NeedsAny => true,
    }
}

/// Whether an object set serves the need.
fn takes_set(need: Need) -> bool
    ensures { result ≡ takes (shown_need need) OfSets }
{
    match need {
        Need::NeedsType => false,
        Need::NeedsTypeOrClass => false,
        Need::NeedsChoice => false,
        Need::NeedsComponents => false,
        Need::NeedsValue => false,
        Need::NeedsClass => false,
        Need::NeedsObject => false,
        Need::NeedsObjectOrSet => true,
        Need::NeedsValueOrObject => false,
        Need::NeedsAny => true,
    }
}

/// Whether a definition of this kind serves the need.
pub(crate) fn takes(need: Need, sort: Sort) -> bool
    ensures { result ≡ takes (shown_need need) (shown_sort sort) }
{
    match sort {
        Sort::Types => takes_type(need),
        Sort::Values => takes_value(need),
        Sort::Classes => takes_class(need),
        Sort::Objects => takes_object(need),
        Sort::Sets => takes_set(need),
    }
}
