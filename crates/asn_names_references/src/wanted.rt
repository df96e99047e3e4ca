//! Which names of a definition are wanted.

ghost use Rattle.asn_names_references.specs.References.{in_arguments, in_default, names_in_value, of_class, within};
ghost use Rattle.std.specs.Option.{option_map};
ghost use Rattle.std.specs.Prelude.{◌≡◌};

use asn_tree::ASN1Value;

/// Which names are wanted.
#[derive(Clone, Copy)]
pub(crate) enum Wanted {
    /// Every name that stands where a reference may stand.
    Every,
    /// Every one but those of the items of object sets.
    Entered,
    /// Of these the ones in the types of defaults, in tables, in contents, in contained subtypes and in argument lists, and those of
    /// selections and behind COMPONENTS OF.
    Followed,
    /// As `Followed`, but in an argument that is a type those that are asked for there; and the classes of fields.
    Asked,
    /// Those of selections alone.
    Selected,
}

/// Which names are wanted in a part that is followed.
pub(crate) fn within(wanted: Wanted) -> Wanted
    ensures { result ≡ within wanted }
{
    match wanted {
        Wanted::Every => Wanted::Every,
        Wanted::Entered => Wanted::Entered,
        Wanted::Followed => Wanted::Entered,
        Wanted::Asked => Wanted::Entered,
        Wanted::Selected => Wanted::Selected,
    }
}

/// Which names are wanted of a member's type, by its default.
pub(crate) fn in_default(default: &Option<ASN1Value>, wanted: Wanted) -> Wanted
    ensures { result ≡ in_default (option_map names_in_value default.now) wanted }
{
    match default {
        None => wanted,
        Some(_) => within(wanted),
    }
}

/// Which names are wanted of types in an argument list.
pub(crate) fn in_arguments(wanted: Wanted) -> Wanted
    ensures { result ≡ in_arguments wanted }
{
    match wanted {
        Wanted::Every => Wanted::Every,
        Wanted::Entered => Wanted::Entered,
        Wanted::Followed => Wanted::Entered,
        Wanted::Asked => Wanted::Asked,
        Wanted::Selected => Wanted::Selected,
    }
}

/// Which names are wanted where the class of a field stands.
pub(crate) fn of_class(wanted: Wanted) -> Wanted
    ensures { result ≡ of_class wanted }
{
    match wanted {
        Wanted::Every => Wanted::Every,
        Wanted::Entered => Wanted::Entered,
        Wanted::Followed => Wanted::Followed,
        Wanted::Asked => Wanted::Entered,
        Wanted::Selected => Wanted::Selected,
    }
}
