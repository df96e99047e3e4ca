//! Laws of instances, each the contract of a function without a body.

ghost use Rattle.asn_link_instance.specs.Laws.{ClosedNamesMeanTheSame, FewerNames, InstanceKept, InstanceKeptBack, InstancesArePlain, LinkedTypesMeanTheSame, LiteralsKept, LiteralsPlain, LiteralsSteady, MoreLevels, Substitution};

/// What Judge says of a type in its scope it says of the instance in the empty scope.
pub fn instance_kept()
    ensures { InstanceKept }
{}

/// What Judge says of the instance in the empty scope it says of the type in its scope.
pub fn instance_kept_back()
    ensures { InstanceKeptBack }
{}

/// Substitution equals look-up: the same trees are accepted, and the same are rejected.
pub fn substitution()
    ensures { Substitution }
{}

/// Linked type definitions mean what they meant.
pub fn linked_types_mean_the_same()
    ensures { LinkedTypesMeanTheSame }
{}

/// Literals mean what the names do that they take the place of.
pub fn literals_kept()
    ensures { LiteralsKept }
{}

/// What is found of instances stays as it is within more levels, and where more steps tell more.
pub fn more_levels()
    ensures { MoreLevels }
{}

/// Literals that take the place of names stay as they are where more steps tell more.
pub fn literals_steady()
    ensures { LiteralsSteady }
{}

/// Instances are in plain form where values are written plainly.
pub fn instances_are_plain()
    ensures { InstancesArePlain }
{}

/// Literals and the names of items are written plainly.
pub fn literals_plain()
    ensures { LiteralsPlain }
{}

/// Where fewer names may stay, the same instance is found if each name that stays in it may.
pub fn fewer_names()
    ensures { FewerNames }
{}

/// What closed names stand for accepts and rejects the same trees as it did, and is in plain form.
pub fn closed_names_mean_the_same()
    ensures { ClosedNamesMeanTheSame }
{}
