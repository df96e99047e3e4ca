//! Objects whose items do not follow their class's syntax, and become the set that the first item names.

ghost use Rattle.asn_needs.specs.PartsOfObjects.{first_name, is_object_or_set, item_name, items_name};
ghost use Rattle.asn_places_objects.specs.inner.Items.{set_named};
ghost use Rattle.asn_tree.specs.declared.objects.InformationObjectFields.{out-InformationObjectFields};
ghost use Rattle.asn_tree.specs.declared.objects.SyntaxApplication.{out-SyntaxApplication};
ghost use Rattle.std.specs.Option.{option_copied};
ghost use Rattle.std.specs.Prelude.{◌≡◌, is_none, None, Some, if◌then◌else◌};

use asn_meaning_dummies::name_of_value;
use asn_meaning_heads::as_written;
use asn_memory::Text;
use asn_names_index::Names;
use asn_tree::{ASN1Information, DeclarationElsewhere, InformationObjectFields, SyntaxApplication};

/// The name of a reference with nothing before it.
fn alone<'a>(reference: &'a DeclarationElsewhere) -> Option<&'a Text>
    ensures { option_copied result ≡ (if is_none reference.now.parent then Some reference.now.identifier else None) }
{
    if reference.parent.is_none() {
        Some(&reference.identifier)
    } else {
        None
    }
}

/// The plain name that an item is.
fn item_name<'a>(item: &'a SyntaxApplication) -> Option<&'a Text>
    ensures { option_copied result ≡ item_name (out-SyntaxApplication item.now) }
{
    match item {
        SyntaxApplication::ObjectSetDeclaration(_) => None,
        SyntaxApplication::ValueReference(value) => name_of_value(as_written(value)),
        SyntaxApplication::TypeReference(_) => None,
        SyntaxApplication::Comma => None,
        SyntaxApplication::Literal(_) => None,
        SyntaxApplication::LiteralOrTypeReference(reference) => alone(reference),
    }
}

/// Whether the name stands for an object or an object set, a template too.
#[tactic(auto, using(crate::proofs::Becoming::is_seen))]
fn is_object_or_set(names: &Names<'_>, name: &str) -> bool
    ensures { result ≡ is_object_or_set names.now.definitions.now name.now }
{
    match names.information_named(name) {
        None => false,
        Some(definition) => match &definition.value {
            ASN1Information::ObjectClass(_) => false,
            ASN1Information::ObjectSet(_) => true,
            ASN1Information::Object(_) => true,
        },
    }
}

/// The name of an object or an object set that an item is.
fn set_named<'a>(names: &Names<'_>, item: &'a SyntaxApplication) -> Option<&'a Text>
    ensures { option_copied result ≡ set_named names.now.definitions.now item.now }
{
    match item_name(item) {
        None => None,
        Some(name) => {
            if is_object_or_set(names, name.as_str()) {
                Some(name)
            } else {
                None
            }
        }
    }
}

/// The name of an object or an object set that the first item is.
#[tactic(auto, using(crate::proofs::Becoming::first_is))]
fn first_name<'a>(names: &Names<'_>, items: &'a [SyntaxApplication]) -> Option<&'a Text>
    ensures { option_copied result ≡ first_name names.now.definitions.now items.now }
{
    match items {
        [] => None,
        [item, ..] => set_named(names, item),
    }
}

/// The name of an object or an object set that the first item of an object in its class's own syntax is.
pub fn items_name<'a>(names: &Names<'_>, fields: &'a InformationObjectFields) -> Option<&'a Text>
    ensures { option_copied result ≡ items_name names.now.definitions.now (out-InformationObjectFields fields.now) }
{
    match fields {
        InformationObjectFields::DefaultSyntax(_) => None,
        InformationObjectFields::CustomSyntax(items) => first_name(names, items.as_slice()),
    }
}
