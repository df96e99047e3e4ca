//! Names, alone and with an object's before them (X.681 15), and those of arcs without a number (X.680 32.3).

ghost use Rattle.asn_names_references.specs.References.{arc_name, arc_names, each_name, item_name, name_in, one_name, path_names};
ghost use Rattle.std.specs.Prelude.{◌≡◌, ◌++◌, OnOk, map};

use crate::wanted::Wanted;
use asn_memory::{List, Mem, Text};
use asn_tree::ObjectIdentifierArc;

/// Adds a name, where every one is wanted that is entered.
pub(crate) fn add_name<'t>(out: &mut List<&'t Text>, name: &'t Text, wanted: Wanted) -> Mem<()>
    ensures { OnOk result (map (λ n. n.now) out.new ≡ map (λ n. n.now) out.old ++ one_name name.now wanted) }
{
    match wanted {
        Wanted::Every | Wanted::Entered => out.add(name),
        Wanted::Followed | Wanted::Asked | Wanted::Selected => Ok(()),
    }
}

/// Adds the name of an item of an object set, where every one is wanted.
pub(crate) fn add_item_name<'t>(out: &mut List<&'t Text>, name: &'t Text, wanted: Wanted) -> Mem<()>
    ensures { OnOk result (map (λ n. n.now) out.new ≡ map (λ n. n.now) out.old ++ item_name name.now wanted) }
{
    match wanted {
        Wanted::Every => out.add(name),
        Wanted::Entered | Wanted::Followed | Wanted::Asked | Wanted::Selected => Ok(()),
    }
}

/// Adds names, in their order.
fn add_all<'t>(out: &mut List<&'t Text>, names: &'t [Text]) -> Mem<()>
    ensures { OnOk result (map (λ n. n.now) out.new ≡ map (λ n. n.now) out.old ++ names.now) }
{
    for name in names {
        out.add(name)?;
    }
    Ok(())
}

/// Adds names, in their order, where every one is wanted that is entered.
pub(crate) fn add_names<'t>(out: &mut List<&'t Text>, names: &'t [Text], wanted: Wanted) -> Mem<()>
    ensures { OnOk result (map (λ n. n.now) out.new ≡ map (λ n. n.now) out.old ++ each_name names.now wanted) }
{
    match wanted {
        Wanted::Every | Wanted::Entered => add_all(out, names),
        Wanted::Followed | Wanted::Asked | Wanted::Selected => Ok(()),
    }
}

/// Adds a name, where there is one.
pub(crate) fn add_optional_name<'t>(
    out: &mut List<&'t Text>,
    name: &'t Option<Text>,
    wanted: Wanted,
) -> Mem<()>
    ensures { OnOk result (map (λ n. n.now) out.new ≡ map (λ n. n.now) out.old ++ name_in name.now wanted) }
{
    match name {
        None => Ok(()),
        Some(name) => add_name(out, name, wanted),
    }
}

/// Adds a name, behind that of its object where it has one.
pub(crate) fn add_path<'t>(
    out: &mut List<&'t Text>,
    parent: &'t Option<Text>,
    name: &'t Text,
    wanted: Wanted,
) -> Mem<()>
    ensures { OnOk result (map (λ n. n.now) out.new ≡ map (λ n. n.now) out.old ++ path_names parent.now name.now wanted) }
{
    add_optional_name(out, parent, wanted)?;
    add_name(out, name, wanted)
}

/// Adds the name of an arc. One with a number, as `x(3)`, has an identifier, which is no reference (X.680 32.3).
fn add_arc<'t>(out: &mut List<&'t Text>, arc: &'t ObjectIdentifierArc, wanted: Wanted) -> Mem<()>
    ensures { OnOk result (map (λ n. n.now) out.new ≡ map (λ n. n.now) out.old ++ arc_name arc.now wanted) }
{
    match &arc.number {
        None => add_optional_name(out, &arc.name, wanted),
        Some(_) => Ok(()),
    }
}

/// Adds the names of arcs that have no number, in their order.
pub(crate) fn add_arcs<'t>(
    out: &mut List<&'t Text>,
    arcs: &'t [ObjectIdentifierArc],
    wanted: Wanted,
) -> Mem<()>
    ensures { OnOk result (map (λ n. n.now) out.new ≡ map (λ n. n.now) out.old ++ arc_names arcs.now wanted) }
{
    for arc in arcs {
        add_arc(out, arc, wanted)?;
    }
    Ok(())
}
