//! The names by which definitions lead on whoever looks for what they stand for.

ghost use Rattle.asn_names_circles.specs.Circles.{but_classes, gone_to, leading, opening, own_name, path};
ghost use Rattle.asn_meaning.specs.Definitions.{is_class};
ghost use Rattle.asn_names_references.specs.References.{asked_of, entered_of, followed_of};
ghost use Rattle.asn_tree.specs.declared.types.ASN1Type.{out-ASN1Type};
ghost use Rattle.std.specs.Prelude.{◌≡◌, ◌++◌, [], IfOk, OnOk, filter, if◌then◌else◌, map, not};

use crate::templates::templates_among;
use asn_memory::{List, Mem, Text};
use asn_names_index::Names;
use asn_names_references::{asked, entered, followed, references, selected};
use asn_tree::{ASN1Information, ASN1Type, ToplevelDefinition};
use std::alloc::Global;

/// Adds a name, behind that of its object where it has one.
fn add_path<'t>(out: &mut List<&'t Text>, parent: &'t Option<Text>, name: &'t Text) -> Mem<()>
    ensures { OnOk result (map (λ n. n.now) out.new ≡ map (λ n. n.now) out.old ++ path parent.now name.now) }
{
    match parent {
        Some(parent) => {
            out.add(parent)?;
            out.add(name)
        }
        None => out.add(name),
    }
}

/// Adds the name that a type is.
fn add_own_name<'t>(out: &mut List<&'t Text>, ty: &'t ASN1Type) -> Mem<()>
    ensures { OnOk result (map (λ n. n.now) out.new ≡ map (λ n. n.now) out.old ++ own_name (out-ASN1Type ty.now)) }
{
    match ty {
        ASN1Type::ElsewhereDeclaredType(name) => add_path(out, &name.parent, &name.identifier),
        ASN1Type::InformationObjectFieldReference(_)
        | ASN1Type::Null
        | ASN1Type::Boolean(_)
        | ASN1Type::Integer(_)
        | ASN1Type::Real(_)
        | ASN1Type::BitString(_)
        | ASN1Type::OctetString(_)
        | ASN1Type::CharacterString(_)
        | ASN1Type::Enumerated(_)
        | ASN1Type::Choice(_)
        | ASN1Type::Sequence(_)
        | ASN1Type::SequenceOf(_)
        | ASN1Type::Set(_)
        | ASN1Type::SetOf(_)
        | ASN1Type::Time(_)
        | ASN1Type::GeneralizedTime(_)
        | ASN1Type::UTCTime(_)
        | ASN1Type::ChoiceSelectionType(_)
        | ASN1Type::ObjectIdentifier(_)
        | ASN1Type::EmbeddedPdv
        | ASN1Type::External => Ok(()),
    }
}

/// Those of the names that stand for no class, in their order.
fn no_classes<'t>(alloc: Global, index: &Names<'_>, several: &[&'t Text]) -> Mem<List<&'t Text>>
    ensures { IfOk result (λ found. map (λ n. n.now) found ≡ filter (λ name. not (is_class index.now.definitions.now name)) (map (λ n. n.now) several.now)) }
{
    let mut found = List::new(alloc);
    for name in several {
        if !index.is_class(name.as_str()) {
            found.add(*name)?;
        }
    }
    Ok(found)
}

/// What a definition of a class, an object or an object set goes on to: every name that is entered; of a class those that stand for no
/// class, and those that are asked for.
fn gone_to_of_information<'t>(
    alloc: Global,
    index: &Names<'_>,
    definition: &'t ToplevelDefinition,
    value: &ASN1Information,
) -> Mem<List<&'t Text>>
    ensures { IfOk result (λ names. map (λ n. n.now) names ≡ but_classes index.now.definitions.now value.now (entered_of definition.now) (asked_of definition.now)) }
{
    let names = entered(alloc, definition)?;
    match value {
        ASN1Information::ObjectClass(_) => {
            let mut others = no_classes(alloc, index, names.as_slice())?;
            others.append(asked(alloc, definition)?)?;
            Ok(others)
        }
        ASN1Information::ObjectSet(_) => Ok(names),
        ASN1Information::Object(_) => Ok(names),
    }
}

/// The names that whoever looks for what a definition stands for goes on to: the one that its type is, and those that are asked for
/// in it; of a definition of no type every name that is entered, but where the type of a class's field is a class.
pub(crate) fn gone_to<'t>(
    alloc: Global,
    index: &Names<'_>,
    definition: &'t ToplevelDefinition,
) -> Mem<List<&'t Text>>
    ensures { IfOk result (λ names. map (λ n. n.now) names ≡ gone_to index.now.definitions.now definition.now) }
{
    match definition {
        ToplevelDefinition::TypeDef(ty) => {
            let mut names = List::new(alloc);
            add_own_name(&mut names, &ty.ty)?;
            names.append(asked(alloc, definition)?)?;
            Ok(names)
        }
        ToplevelDefinition::Value(_) => {
            let names = entered(alloc, definition)?;
            Ok(names)
        }
        ToplevelDefinition::Information(information) => {
            let names = gone_to_of_information(alloc, index, definition, &information.value)?;
            Ok(names)
        }
    }
}

/// The names by which a definition leads on: those that it goes on to, and the templates to which it refers.
fn leading<'t>(
    alloc: Global,
    index: &Names<'_>,
    definition: &'t ToplevelDefinition,
) -> Mem<List<&'t Text>>
    ensures { IfOk result (λ names. map (λ n. n.now) names ≡ leading index.now.definitions.now definition.now) }
{
    let mut names = gone_to(alloc, index, definition)?;
    let mentioned = references(alloc, definition)?;
    names.append(templates_among(alloc, index, mentioned.as_slice())?)?;
    Ok(names)
}

/// This of each definition.
pub(crate) fn leading_of<'t>(
    alloc: Global,
    index: &Names<'_>,
    definitions: &[&'t ToplevelDefinition],
) -> Mem<List<List<&'t Text>>>
    ensures { IfOk result (λ lists. map (map (λ n. n.now)) lists ≡ map (leading index.now.definitions.now) (map (λ d. d.now) definitions.now)) }
{
    let mut lists = List::new(alloc);
    for definition in definitions {
        lists.add(leading(alloc, index, definition)?)?;
    }
    Ok(lists)
}

/// Adds the names that a definition follows, where it isn't gentle.
fn add_followed<'t>(
    alloc: Global,
    out: &mut List<&'t Text>,
    definition: &'t ToplevelDefinition,
    is_gentle: bool,
) -> Mem<()>
    ensures { OnOk result (map (λ n. n.now) out.new ≡ map (λ n. n.now) out.old ++ (if is_gentle then [] else followed_of definition.now)) }
{
    if is_gentle {
        Ok(())
    } else {
        out.append(followed(alloc, definition)?)
    }
}

/// The names by which one may come to a part of what they stand for, and so to any name in it: those of selections, and, where the
/// definition isn't gentle, those that it follows.
pub(crate) fn opening<'t>(
    alloc: Global,
    definition: &'t ToplevelDefinition,
    is_gentle: bool,
) -> Mem<List<&'t Text>>
    ensures { IfOk result (λ names. map (λ n. n.now) names ≡ opening is_gentle definition.now) }
{
    let mut names = selected(alloc, definition)?;
    add_followed(alloc, &mut names, definition, is_gentle)?;
    Ok(names)
}
