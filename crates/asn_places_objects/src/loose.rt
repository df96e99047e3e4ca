//! Arguments without a dummy: names in them are judged all the same, kinds are not.

ghost use Rattle.asn_needs.specs.PartsOfObjects.{loose_parts, unnamed_parts};
ghost use Rattle.asn_places_types.specs.Sites.{shown_around, shown_sites};
ghost use Rattle.asn_tree.specs.declared.constraints.Parameter.{out-Parameter};
ghost use Rattle.std.specs.Prelude.{◌≡◌, ◌++◌, IfOk};

use crate::sets::with_loose_fields;
use asn_meaning_dummies::argument_name;
use asn_meaning_heads::ValueForm;
use asn_memory::{List, Mem};
use asn_places_types::{
    Around, Form, SetForm, Site, TypePlace, ValuePlace, with_bare_type, with_site,
};
use asn_tree::Parameter;
use std::rc::Rc;

/// The sites with an argument that is no plain name.
///
/// Err: want of memory.
fn with_unnamed<'a>(
    sites: List<Site<'a>>,
    around: &Rc<Around<'a>>,
    argument: &'a Parameter,
) -> Mem<List<Site<'a>>>
    ensures { IfOk result (λ more. shown_sites more ≡ shown_sites sites.entry ++ unnamed_parts (shown_around around.now.value) (out-Parameter argument.now)) }
{
    match argument {
        Parameter::ValueParameter(value) => {
            let form = Form::AValue(ValuePlace::AsSuch, ValueForm::Written(value), None);
            let sites = with_site(sites, around, form)?;
            Ok(sites)
        }
        Parameter::TypeParameter(ty) => {
            let sites = with_bare_type(sites, around, TypePlace::InPlace, ty)?;
            Ok(sites)
        }
        Parameter::InformationObjectParameter(fields) => {
            let sites = with_loose_fields(sites, around, fields)?;
            Ok(sites)
        }
        Parameter::ObjectSetParameter(set) => {
            let form = Form::AnObjectSet(None, SetForm::Written(set));
            let sites = with_site(sites, around, form)?;
            Ok(sites)
        }
    }
}

/// The sites with what stands in an argument without a dummy: nothing in a plain name, which may be that of any definition.
///
/// Err: want of memory.
#[tactic(auto, using(asn_places_types::proofs::Adding::nothing_more))]
pub fn with_loose_parts<'a>(
    sites: List<Site<'a>>,
    around: &Rc<Around<'a>>,
    argument: &'a Parameter,
) -> Mem<List<Site<'a>>>
    ensures { IfOk result (λ more. shown_sites more ≡ shown_sites sites.entry ++ loose_parts (shown_around around.now.value) (out-Parameter argument.now)) }
{
    if argument_name(argument).is_some() {
        Ok(sites)
    } else {
        let sites = with_unnamed(sites, around, argument)?;
        Ok(sites)
    }
}
