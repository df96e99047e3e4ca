//! The names and types of the members of a SEQUENCE or SET and of the options of a CHOICE.

ghost use Rattle.asn_calls.specs.Members.{member_pairs, option_pairs};
ghost use Rattle.std.specs.Prelude.{◌≡◌};

use asn_tree::{ASN1Type, Choice, ChoiceOption, SequenceOrSet, SequenceOrSetMember};
use std::marker::Model;

/// Calls on what has named parts, each with its type: `SequenceOrSet` and `Choice`.
pub trait IterNameTypes {
    /// The names and types in the order of the text. It takes no memory.
    fn iter_name_types(&self) -> NameTypes<'_>;
}

/// The result of `iter_name_types`, seen as the list of the names and types that are left.
#[derive(Drop)]
pub struct NameTypes<'a> {
    members: &'a [SequenceOrSetMember],
    options: &'a [ChoiceOption],
}

impl<'a> Model for NameTypes<'a> {
    ghost use Rattle.std.specs.Prelude.{ℕ, List, ◌++◌, map};
    ghost use Rattle.asn_tree.specs.declared.types.ASN1Type.{ASN1Type};
    ghost use Rattle.asn_calls.specs.Members.{member_pair, option_pair};
    ghost use Rattle.asn_tree.specs.contracts.types.ASN1Type as asn1_type;
    ghost use Rattle.std.specs.Coded.{coded_list, coded_ℕ, coded×};

    ghost Value = { List (List ℕ × ASN1Type) };

    ghost coded = { coded_list (coded× (coded_list coded_ℕ) asn1_type.the_row.coded) };

    ghost view = { λ left. map member_pair left.members.now ++ map option_pair left.options.now };
}

impl<'a> Iterator for NameTypes<'a> {
    ghost use Rattle.asn_calls.specs.Members.{NameTypesGive, name_types_left};

    type Item = (&'a str, &'a ASN1Type);

    ghost next_gives = { NameTypesGive };

    ghost remaining = { name_types_left };

    fn next(&mut self) -> Option<(&'a str, &'a ASN1Type)> {
        if let Some((member, others)) = self.members.split_first() {
            self.members = others;
            return Some((member.name.as_str(), &member.ty));
        }
        let (option, others) = self.options.split_first()?;
        self.options = others;
        Some((option.name.as_str(), &option.ty))
    }
}

impl IterNameTypes for SequenceOrSet {
    fn iter_name_types(&self) -> NameTypes<'_>
        ensures { result ≡ member_pairs self.now }
    {
        NameTypes {
            members: self.members.as_slice(),
            options: &[],
        }
    }
}

impl IterNameTypes for Choice {
    fn iter_name_types(&self) -> NameTypes<'_>
        ensures { result ≡ option_pairs self.now }
    {
        NameTypes {
            members: &[],
            options: self.options.as_slice(),
        }
    }
}
