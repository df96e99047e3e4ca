//! The fields that an object gives.

ghost use Rattle.asn_meaning_fields.specs.Given.{shown_given_fields};
ghost use Rattle.asn_names_index.specs.Classes.{shown_class};
ghost use Rattle.asn_meaning.specs.Definitions.{type_identifier};
ghost use Rattle.asn_meaning.specs.Objects.{applied, given_at};
ghost use Rattle.asn_tree.specs.declared.objects.InformationObjectFields.{out-InformationObjectFields};
ghost use Rattle.std.specs.Option.{option_map};
ghost use Rattle.std.specs.Prelude.{◌≡◌, [], IfOk, Some};

use crate::built_in::follow_built_in;
use crate::following::follow_each;
use crate::walks::{Walk, if_ended, with_field};
use asn_meaning_heads::{Behind, GivenField, as_given};
use asn_memory::{List, Mem};
use asn_names_index::Class;
use asn_tree::{
    InformationObjectField, InformationObjectFields, InformationObjectSyntax, SyntaxApplication,
};
use std::alloc::Global;

/// No item followed yet.
fn begun<'a>(alloc: Global, items: &'a [SyntaxApplication]) -> Walk<'a>
    ensures fields { shown_given_fields result.fields ≡ [] }
    ensures left { result.left.now ≡ items.now }
{
    Walk {
        fields: List::new(alloc),
        left: items,
    }
}

/// The fields that items give which follow the syntax of the built-in class. None: they do not follow it.
///
/// Err: want of memory.
#[tactic(auto, using(crate::proofs::Applying::built_in_fails, crate::proofs::Applying::built_in_followed))]
fn applied_built_in<'a>(
    alloc: Global,
    items: &'a [SyntaxApplication],
) -> Mem<Option<List<GivenField<'a>>>>
    ensures { IfOk result (λ found. option_map shown_given_fields found ≡ applied type_identifier.syntax items.now) }
{
    let Some(walk) = follow_built_in(begun(alloc, items))? else {
        return Ok(None);
    };
    Ok(if_ended(walk))
}

/// The fields that items give which follow a syntax. None: they do not follow it.
///
/// Err: want of memory.
#[tactic(auto, using(crate::proofs::Applying::syntax_fails, crate::proofs::Applying::syntax_followed))]
fn applied_syntax<'a>(
    alloc: Global,
    syntax: &'a InformationObjectSyntax,
    items: &'a [SyntaxApplication],
) -> Mem<Option<List<GivenField<'a>>>>
    ensures { IfOk result (λ found. option_map shown_given_fields found ≡ applied (Some syntax.now) items.now) }
{
    let parts = &syntax.expressions;
    let Some(walk) = follow_each(parts, false, &Behind::end(), begun(alloc, items))? else {
        return Ok(None);
    };
    Ok(if_ended(walk))
}

/// The fields that items give which follow the class's own syntax. None: the class has no syntax, or the items do not follow it.
///
/// Err: want of memory.
fn applied<'a>(
    alloc: Global,
    class: Class<'a>,
    items: &'a [SyntaxApplication],
) -> Mem<Option<List<GivenField<'a>>>>
    ensures { IfOk result (λ found. option_map shown_given_fields found ≡ applied (shown_class class.entry).syntax items.now) }
{
    match class {
        Class::TypeIdentifier => {
            let found = applied_built_in(alloc, items)?;
            Ok(found)
        }
        Class::Written(class) => match &class.syntax {
            None => Ok(None),
            Some(syntax) => {
                let found = applied_syntax(alloc, syntax, items)?;
                Ok(found)
            }
        },
    }
}

/// The fields that stand by their names.
///
/// Err: want of memory.
fn written<'a>(alloc: Global, fields: &'a [InformationObjectField]) -> Mem<List<GivenField<'a>>>
    ensures { IfOk result (λ all. shown_given_fields all ≡ fields.now) }
{
    let mut all = List::new(alloc);
    for field in fields {
        all = with_field(all, as_given(field))?;
    }
    Ok(all)
}

/// The fields that an object of the class gives, in order: those that stand by their names (X.681 11.4), or those that the items of
/// the class's own syntax give (X.681 11.6). None: it stands in its class's own syntax, and there is no class, or the class has no
/// syntax, or the items do not follow it.
///
/// Err: want of memory.
pub fn given_fields<'a>(
    alloc: Global,
    class: Option<Class<'a>>,
    fields: &'a InformationObjectFields,
) -> Mem<Option<List<GivenField<'a>>>>
    ensures { IfOk result (λ found. option_map shown_given_fields found ≡ given_at (option_map shown_class class.entry) (out-InformationObjectFields fields.now)) }
{
    match fields {
        InformationObjectFields::DefaultSyntax(fields) => {
            let all = written(alloc, fields.as_slice())?;
            Ok(Some(all))
        }
        InformationObjectFields::CustomSyntax(items) => match class {
            None => Ok(None),
            Some(class) => {
                let found = applied(alloc, class, items.as_slice())?;
                Ok(found)
            }
        },
    }
}
