//! Governors of dummies that are wrong (X.683 8.3).

ghost use Rattle.asn_faults_arguments.specs.inner.Asked.{is_type_definition};
ghost use Rattle.asn_meaning_heads.specs.Scopes.{shown, shown_bound};
ghost use Rattle.asn_needs.specs.Arguments.{is_small, names_type, type_words, wrong_class, wrong_dummy_governor, wrong_governor};
ghost use Rattle.asn_needs.specs.Sites.{seen};
ghost use Rattle.asn_places_types.specs.Sites.{shown_around};
ghost use Rattle.std.specs.List.{list_any};
ghost use Rattle.std.specs.Prelude.{◌≡◌, ◌+◌, ℕ, map, IfOk};
ghost use Rattle.std.specs.Str.{bytes_eq};

use asn_meaning_dummies::{handed_on, is_information};
use asn_meaning_heads::{Bound, Scope};
use asn_memory::Mem;
use asn_names_index::{Names, is_built_in};
use asn_places_types::{Around, scope_in};
use asn_tree::{ASN1Information, ParameterGovernor, ParameterizationArgument, ToplevelDefinition};
use std::rc::Rc;

/// Whether the name is one of these words.
fn is_one_of(words: &[&str], name: &str) -> bool
    ensures { result ≡ list_any (bytes_eq name.now) (map (λ w. w.now) words.now) }
{
    for word in words {
        if name == *word {
            return true;
        }
    }
    false
}

/// Whether the name is a word that is a type of its own.
fn is_type_word(name: &str) -> bool
    ensures { result ≡ list_any (bytes_eq name.now) type_words }
{
    is_one_of(
        &[
            "NULL",
            "BOOLEAN",
            "INTEGER",
            "REAL",
            "TIME",
            "EXTERNAL",
            "GeneralizedTime",
            "UTCTime",
            "IA5String",
            "UTF8String",
            "NumericString",
            "VisibleString",
            "TeletexString",
            "VideotexString",
            "GraphicString",
            "GeneralString",
            "UniversalString",
            "BMPString",
            "PrintableString",
        ],
        name,
    )
}

/// Whether a definition is that of a type.
fn is_type_definition(definition: &ToplevelDefinition) -> bool
    ensures { result ≡ is_type_definition definition.now }
{
    match definition {
        ToplevelDefinition::TypeDef(_) => true,
        ToplevelDefinition::Value(_) => false,
        ToplevelDefinition::Information(definition) => match &definition.value {
            ASN1Information::ObjectClass(_) => false,
            ASN1Information::ObjectSet(_) => false,
            ASN1Information::Object(_) => false,
        },
    }
}

/// Whether a name is that of a type, a template too.
#[tactic(auto, using(crate::proofs::Wronging::type_built_in, crate::proofs::Wronging::type_unseen, crate::proofs::Wronging::type_seen))]
fn names_type(names: &Names<'_>, name: &str) -> bool
    ensures { result ≡ names_type names.now.definitions.now name.now }
{
    if is_built_in(name) {
        return false;
    }
    match names.see(name) {
        None => is_type_word(name),
        Some(definition) => is_type_definition(definition),
    }
}

/// Whether a governor that is itself a dummy stands for what is no class.
///
/// Err: want of memory, only where its argument is handed on more often than there are steps.
fn wrong_dummy_governor(names: &Names<'_>, steps: usize, bound: Bound<'_, '_>) -> Mem<bool>
    ensures { IfOk result (λ b. (m : ℕ) → b ≡ wrong_dummy_governor (seen names.now.definitions.now (steps + m)) (shown_bound bound.entry)) }
{
    match bound.argument {
        None => Ok(false),
        Some(argument) => match handed_on(steps, argument)? {
            None => Ok(false),
            Some(found) => Ok(!is_information(names, found)),
        },
    }
}

/// Whether a governor names a type where a class is meant.
///
/// Err: want of memory, only where an argument is handed on more often than there are steps.
#[tactic(auto, using(crate::proofs::Wronging::class_unbound, crate::proofs::Wronging::class_bound))]
fn wrong_class(names: &Names<'_>, steps: usize, scope: &Scope<'_>, class: &str) -> Mem<bool>
    ensures { IfOk result (λ b. (m : ℕ) → b ≡ wrong_class (seen names.now.definitions.now (steps + m)) (shown scope.now) class.now) }
{
    match scope.bound_to(class) {
        None => Ok(names_type(names, class)),
        Some(bound) => {
            let wrong = wrong_dummy_governor(names, steps, bound)?;
            Ok(wrong)
        }
    }
}

/// Whether the text begins with a small letter.
fn is_small(text: &[u8]) -> bool
    ensures { result ≡ is_small text.now }
{
    match text {
        [first, ..] => b'a' <= *first && *first <= b'z',
        [] => false,
    }
}

/// Whether a dummy has a wrong governor: none, where it begins with a small letter, or the name of a type where a class is meant
/// (X.683 8.3).
///
/// Err: want of memory, only where an argument is handed on more often than there are steps.
pub fn is_wrong_governor<'a>(
    names: &Names<'a>,
    steps: usize,
    around: &Rc<Around<'a>>,
    dummy: &ParameterizationArgument,
) -> Mem<bool>
    ensures { IfOk result (λ b. (m : ℕ) → b ≡ wrong_governor (seen names.now.definitions.now (steps + m)) (shown_around around.now.value).scope dummy.now.dummy_reference dummy.now.param_governor) }
{
    match &dummy.param_governor {
        ParameterGovernor::None => Ok(is_small(dummy.dummy_reference.as_str().as_bytes())),
        ParameterGovernor::TypeOrClass(_) => Ok(false),
        ParameterGovernor::Class(class) => {
            let wrong = wrong_class(names, steps, scope_in(around), class.as_str())?;
            Ok(wrong)
        }
    }
}
