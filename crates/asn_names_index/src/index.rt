//! Making an index of names, and looking definitions up in it.

ghost use Rattle.asn_meaning.specs.Definitions.{last_named};
ghost use Rattle.asn_names_index.specs.Definitions.{is_duplicate, IsStanding};
ghost use Rattle.asn_names_index.specs.Index.{found_at, IsIndexOf};
ghost use Rattle.std.specs.BTreeMap.{get, get_by_text, IsOrdered};
ghost use Rattle.std.specs.Prelude.{◌≡◌, ◌<◌, IfOk, OnOk, Some, ℕ, List as Sequence, length, map, if◌then◌else◌};
ghost use Rattle.std.specs.List.{All};
ghost use Rattle.std.specs.Str.{bytes_eq};
ghost use Rattle.std.specs.String.{string_cmp};
ghost use Rattle.std.specs.Option.{option_copied};

use crate::names::{LastPlace, Names};
use asn_memory::{List, Mem, OutOfMemory, Text};
use asn_tree::ToplevelDefinition;
use std::alloc::Global;
use std::collections::BTreeMap;

impl<'t> Names<'t> {
    /// An index of these definitions.
    pub fn new(alloc: Global, definitions: &'t List<ToplevelDefinition>) -> Mem<Names<'t>>
        ensures { IfOk result (λ names. names.definitions.now ≡ definitions.now) }
    {
        let index = index_of(alloc, definitions.as_slice())?;
        Ok(Names { definitions, index })
    }

    /// The definition that stands for a name: the last of that name.
    pub fn last_named(&self, name: &str) -> Option<&'t ToplevelDefinition>
        ensures { option_copied result ≡ last_named self.now.definitions.now name.now }
    {
        match self.index.get(name) {
            Some(place) => self.definitions.get(place.at),
            None => None,
        }
    }

    /// Whether several definitions have the name.
    pub fn is_duplicate(&self, name: &str) -> bool
        ensures { result ≡ is_duplicate self.now.definitions.now name.now }
    {
        match self.index.get(name) {
            Some(place) => place.is_repeated,
            None => false,
        }
    }

    /// The definitions that stand: one for each name, the last of that name, in byte order of the names.
    pub fn standing(&self, alloc: Global) -> Mem<List<&'t ToplevelDefinition>>
        ensures { IfOk result (λ ds. IsStanding self.now.definitions.now (map (λ d. d.now) ds)) }
    {
        definitions_at(alloc, self.definitions, &self.index)
    }
}

/// The definitions at the places of an index, in byte order of the names.
fn definitions_at<'t>(
    alloc: Global,
    definitions: &'t List<ToplevelDefinition>,
    index: &BTreeMap<String, LastPlace>,
) -> Mem<List<&'t ToplevelDefinition>>
    ensures found { IfOk result (λ ds. map (λ d. d.now) ds ≡ found_at definitions.now index.now.entries) }
    ensures ordered { IsOrdered string_cmp index.now }
    ensures entries { All (λ e. get string_cmp index.now e.0 ≡ Some e.1) index.now.entries }
{
    let mut found = List::new(alloc);
    for (_, place) in index.iter() {
        if let Some(definition) = definitions.get(place.at) {
            found.add(definition)?;
        }
    }
    Ok(found)
}

/// Puts the place of a name into the index.
fn put(
    alloc: Global,
    index: &mut BTreeMap<String, LastPlace>,
    name: &Text,
    place: LastPlace,
) -> Mem<()>
    ensures { OnOk result ((q : Sequence ℕ) → get_by_text index.new q ≡ (if bytes_eq name.now q then Some place else get_by_text index.old q)) }
{
    let key = String::from_str(alloc, name.as_str())?;
    index.insert(key, place)?;
    Ok(())
}

/// The place of each name's last definition.
fn index_of(alloc: Global, definitions: &[ToplevelDefinition]) -> Mem<BTreeMap<String, LastPlace>>
    ensures { IfOk result (λ index. IsIndexOf definitions.now index) }
{
    let mut index = BTreeMap::new(alloc);
    for (at, definition) in definitions.iter().enumerate() {
        let name = definition.name();
        let place = LastPlace {
            at,
            is_repeated: index.get(name.as_str()).is_some(),
        };
        put(alloc, &mut index, name, place)?;
    }
    Ok(index)
}
