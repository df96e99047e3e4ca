//! Names without a definition of the kind that is needed, and templates' names without a list.

ghost use Rattle.asn_needs.specs.Occurrences.{lacks_definition, lacks_list, parameters_of, sort_of, takes};
ghost use Rattle.asn_places_names.specs.Occurrences.{shown_need, shown_occurrence};
ghost use Rattle.asn_places_names.specs.inner.Lacks.{lacks};
ghost use Rattle.std.specs.Prelude.{◌≡◌, ◌&&◌, is_some, not};

use crate::needs::Need;
use crate::occurrences::Occurrence;
use crate::sorts::{Sort, is_template, sort_of, takes};
use asn_names_index::{Names, is_built_in};
use asn_tree::ToplevelDefinition;

/// Whether a name has no definition that serves the need; TYPE-IDENTIFIER is a class (X.681 A.2).
#[tactic(auto, using(crate::proofs::Missing::lacks_built_in, crate::proofs::Missing::lacks_seen))]
pub(crate) fn lacks(names: &Names<'_>, need: Need, name: &str) -> bool
    ensures { result ≡ lacks names.now.definitions.now (shown_need need) name.now }
{
    if is_built_in(name) {
        return !takes(need, Sort::Classes);
    }
    match names.see(name) {
        None => true,
        Some(definition) => !takes(need, sort_of(definition)),
    }
}

/// Whether the name has no definition of the kind that its place needs.
pub fn lacks_definition(names: &Names<'_>, occurrence: &Occurrence<'_>) -> bool
    ensures { result ≡ lacks_definition names.now.definitions.now (shown_occurrence occurrence.now) }
{
    lacks(names, occurrence.need, occurrence.name.as_str())
}

/// Whether a definition serves the need, and is a template whose name stands without a list.
fn wants_list(need: Need, definition: &ToplevelDefinition, has_list: bool) -> bool
    ensures { result ≡ (takes (shown_need need) (sort_of definition.now) && (is_some (parameters_of definition.now) && not has_list)) }
{
    if takes(need, sort_of(definition)) {
        is_template(definition) && !has_list
    } else {
        false
    }
}

/// Whether a template's name stands without a list, where its definition is of the kind that its place needs (X.683 9.1).
#[tactic(auto, using(crate::proofs::Missing::list_is_seen))]
pub fn lacks_list(names: &Names<'_>, occurrence: &Occurrence<'_>) -> bool
    ensures { result ≡ lacks_list names.now.definitions.now (shown_occurrence occurrence.now) }
{
    match names.see(occurrence.name.as_str()) {
        None => false,
        Some(definition) => wants_list(occurrence.need, definition, occurrence.has_list),
    }
}
