//! Making types.

ghost use Rattle.asn_tree_equality.specs.Making.{listed, marked};
ghost use Rattle.asn_tree_leaves.specs.Plain.{string_type};
ghost use Rattle.std.specs.Option.{option_copied};
ghost use Rattle.std.specs.Prelude.{◌≡◌, ◌++◌, [], IfOk, Ok, length};

use crate::types::{
    BitStringOver, BooleanOver, CharacterStringOver, ChoiceSelectionType, DeclarationElsewhereOver,
    DistinguishedValue, Enumeral, EnumeratedOver, ObjectIdentifierOver, OctetStringOver, RealOver,
    TimeOver,
};
use asn_memory::{List, Mem, Text};
use asn_tree_equality::{appended, beside, listed, marked, optional_text};
use asn_tree_leaves::{CharacterStringType, ExtensionMarker};
use std::alloc::Global;

impl<C> BooleanOver<C> {
    /// BOOLEAN with these constraints. It takes no memory.
    pub fn from_parts(alloc: Global, constraints: Option<List<C>>) -> Mem<BooleanOver<C>>
        ensures { result ≡ Ok (record { constraints = listed constraints }) }
    {
        Ok(BooleanOver {
            constraints: listed(alloc, constraints),
        })
    }
}

impl<C> RealOver<C> {
    /// REAL with these constraints. It takes no memory.
    pub fn from_parts(alloc: Global, constraints: Option<List<C>>) -> Mem<RealOver<C>>
        ensures { result ≡ Ok (record { constraints = listed constraints }) }
    {
        Ok(RealOver {
            constraints: listed(alloc, constraints),
        })
    }
}

impl<C> OctetStringOver<C> {
    /// OCTET STRING with these constraints. It takes no memory.
    pub fn from_parts(alloc: Global, constraints: Option<List<C>>) -> Mem<OctetStringOver<C>>
        ensures { result ≡ Ok (record { constraints = listed constraints }) }
    {
        Ok(OctetStringOver {
            constraints: listed(alloc, constraints),
        })
    }
}

impl<C> BitStringOver<C> {
    /// BIT STRING with these named bits and constraints. It takes no memory.
    pub fn from_parts(
        alloc: Global,
        distinguished_values: Option<List<DistinguishedValue>>,
        constraints: Option<List<C>>,
    ) -> Mem<BitStringOver<C>>
        ensures { result ≡ Ok (record {
          constraints = listed constraints;
          distinguished_values = distinguished_values;
        }) }
    {
        Ok(BitStringOver {
            constraints: listed(alloc, constraints),
            distinguished_values,
        })
    }
}

impl<C> ObjectIdentifierOver<C> {
    /// OBJECT IDENTIFIER with these constraints. It takes no memory.
    pub fn from_parts(alloc: Global, constraints: Option<List<C>>) -> Mem<ObjectIdentifierOver<C>>
        ensures { result ≡ Ok (record { constraints = listed constraints }) }
    {
        Ok(ObjectIdentifierOver {
            constraints: listed(alloc, constraints),
        })
    }
}

impl<C> TimeOver<C> {
    /// TIME with these constraints. It takes no memory.
    pub fn from_parts(alloc: Global, constraints: Option<List<C>>) -> Mem<TimeOver<C>>
        ensures { result ≡ Ok (record { constraints = listed constraints }) }
    {
        Ok(TimeOver {
            constraints: listed(alloc, constraints),
        })
    }
}

impl<C> CharacterStringOver<C> {
    /// The character string type that the word names, UTF8String for any other word, with these constraints. It takes
    /// no memory.
    pub fn from_parts(
        alloc: Global,
        word: &str,
        constraints: Option<List<C>>,
    ) -> Mem<CharacterStringOver<C>>
        ensures { result ≡ Ok (record {
          constraints = listed constraints;
          ty = string_type word.now;
        }) }
    {
        Ok(CharacterStringOver {
            constraints: listed(alloc, constraints),
            ty: CharacterStringType::from(word),
        })
    }
}

impl<C> EnumeratedOver<C> {
    /// The ENUMERATED of these items: those of the first list, and, behind an extension marker, those of the second.
    pub fn from_parts(
        alloc: Global,
        items: List<Enumeral>,
        marker: Option<ExtensionMarker>,
        additions: Option<List<Enumeral>>,
    ) -> Mem<EnumeratedOver<C>>
        ensures { IfOk result (λ made. made ≡ record {
          members = items ++ listed additions;
          extensible = marked marker (length items);
          constraints = [];
        }) }
    {
        let extensible = marked(marker, items.len());
        Ok(EnumeratedOver {
            members: appended(items, additions)?,
            extensible,
            constraints: List::new(alloc),
        })
    }
}

impl DistinguishedValue {
    /// The number of that name.
    pub fn from_parts(alloc: Global, name: &str, value: i128) -> Mem<DistinguishedValue>
        ensures { IfOk result (λ made. made ≡ record { name = name.now; value = value }) }
    {
        Ok(DistinguishedValue {
            name: Text::new(alloc, name)?,
            value,
        })
    }
}

impl ChoiceSelectionType {
    /// The type of the option of the first name in the CHOICE of the second.
    pub fn from_parts(alloc: Global, option: &str, choice: &str) -> Mem<ChoiceSelectionType>
        ensures { IfOk result (λ made. made ≡ record {
          choice_name = choice.now;
          selected_option = option.now;
        }) }
    {
        Ok(ChoiceSelectionType {
            choice_name: Text::new(alloc, choice)?,
            selected_option: Text::new(alloc, option)?,
        })
    }
}

impl<C: Drop> DeclarationElsewhereOver<C> {
    /// The name of a type: what stands before the last dot of a path, the name itself, and the constraints behind it.
    pub fn from_parts(
        alloc: Global,
        parent: Option<&str>,
        identifier: &str,
        constraints: Option<List<C>>,
    ) -> Mem<DeclarationElsewhereOver<C>>
        ensures { IfOk result (λ made. made ≡ record {
          parent = option_copied parent.entry;
          identifier = identifier.now;
          constraints = listed constraints;
        }) }
    {
        let (parent, constraints) = beside(optional_text(alloc, parent), constraints)?;
        let (identifier, (parent, constraints)) = beside(
            Text::new(alloc, identifier),
            (parent, constraints),
        )?;
        Ok(DeclarationElsewhereOver {
            parent,
            identifier,
            constraints: listed(alloc, constraints),
        })
    }
}
