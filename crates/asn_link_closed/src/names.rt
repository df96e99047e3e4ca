//! Names that stay, and lists of them.

ghost use Rattle.asn_link_closed.specs.Lent.{shown_staying_names};
ghost use Rattle.std.specs.Option.{option_copied};
ghost use Rattle.std.specs.Prelude.{◌≡◌, ◌++◌, ◌∷◌, [], OnOk};

use asn_memory::{List, Mem, Text};

/// A name that stays: alone, or the name of a field behind that of its object.
#[derive(Drop)]
pub struct StayingName<'a> {
    pub object: Option<&'a Text>,
    pub name: &'a Text,
}

/// Adds a name.
pub(crate) fn add_name<'a>(
    names: &mut List<StayingName<'a>>,
    object: Option<&'a Text>,
    name: &'a Text,
) -> Mem<()>
    ensures { OnOk result (shown_staying_names names.new ≡ shown_staying_names names.old ++ (option_copied object.entry, name.now) ∷ []) }
{
    names.add(StayingName { object, name })
}
