//! Laws of what linking leaves as it is, each the contract of a function without a body of its own.

ghost use Rattle.asn_link_closed.specs.OwnInstances.{UnchangedAreOwnInstances, UnchangedBringNoTag, UnchangedNamesAreReferences};

/// A type that linking leaves as it is is its own instance, from some number of levels on.
pub fn unchanged_are_own_instances()
    ensures { UnchangedAreOwnInstances }
{}

/// It brings no tag to the place of another.
pub fn unchanged_bring_no_tag()
    ensures { UnchangedBringNoTag }
{}

/// Each name that stays in it is one of its type references, and none is the field of an object.
pub fn unchanged_names_are_references()
    ensures { UnchangedNamesAreReferences }
{}
