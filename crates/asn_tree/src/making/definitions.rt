//! Making definitions and their parameters.

ghost use Rattle.asn_tree_equality.specs.Making.{lines_joined};
ghost use Rattle.asn_tree.specs.declared.objects.ClassLink.TheVariants.{ByName};
ghost use Rattle.std.specs.Prelude.{◌≡◌, [], IfOk, None, Some, map};
ghost use Rattle.asn_tree.specs.declared.definitions.ParameterGovernor.TheVariants as governor;
ghost use Rattle.asn_tree.specs.declared.objects.ASN1Information.TheVariants as information;

use crate::definitions::{
    ParameterGovernor, Parameterization, ParameterizationArgument, ToplevelInformationDefinition,
    ToplevelTypeDefinition, ToplevelValueDefinition,
};
use crate::objects::{
    ASN1Information, ClassLink, InformationObject, InformationObjectClass, InformationObjectFields,
    ObjectSet,
};
use crate::types::ASN1Type;
use crate::values::ASN1Value;
use asn_memory::{List, Mem, Text};
use asn_tree_equality::{beside, joined};
use asn_tree_headers::AsnTag;
use std::alloc::Global;

/// These parameters in their order.
impl From<List<ParameterizationArgument>> for Parameterization {
    ghost use Rattle.std.specs.Prelude.{◌≡◌};

    ghost from_gives = { λ parameters made. made.parameters ≡ parameters };

    fn from(parameters: List<ParameterizationArgument>) -> Parameterization {
        Parameterization { parameters }
    }
}

impl ParameterizationArgument {
    /// The dummy reference of that name without a governor.
    pub fn from_parts(alloc: Global, name: &str) -> Mem<ParameterizationArgument>
        ensures { IfOk result (λ made. made ≡ record {
          dummy_reference = name.now;
          param_governor = governor.None;
        }) }
    {
        Ok(ParameterizationArgument {
            dummy_reference: Text::new(alloc, name)?,
            param_governor: ParameterGovernor::None,
        })
    }

    /// The dummy reference of that name under a type or class.
    pub fn from_type(alloc: Global, ty: ASN1Type, name: &str) -> Mem<ParameterizationArgument>
        ensures { IfOk result (λ made. made ≡ record {
          dummy_reference = name.now;
          param_governor = governor.TypeOrClass ty;
        }) }
    {
        let (dummy_reference, ty) = beside(Text::new(alloc, name), ty)?;
        Ok(ParameterizationArgument {
            dummy_reference,
            param_governor: ParameterGovernor::TypeOrClass(ty),
        })
    }

    /// The dummy reference of the second name under the class of the first.
    pub fn from_class(alloc: Global, class: &str, name: &str) -> Mem<ParameterizationArgument>
        ensures { IfOk result (λ made. made ≡ record {
          dummy_reference = name.now;
          param_governor = governor.Class class.now;
        }) }
    {
        let (dummy_reference, class) = two_texts(alloc, name, class)?;
        Ok(ParameterizationArgument {
            dummy_reference,
            param_governor: ParameterGovernor::Class(class),
        })
    }
}

/// A dummy reference is governed by nothing, unless something is said.
impl Default for ParameterGovernor {
    ghost use Rattle.std.specs.Prelude.{◌≡◌};
    ghost use Rattle.asn_tree.specs.declared.definitions.ParameterGovernor.TheVariants as governor;

    ghost is_default = { λ g. g ≡ governor.None };

    fn default() -> ParameterGovernor {
        ParameterGovernor::None
    }
}

/// The two texts of their own.
fn two_texts(alloc: Global, first: &str, second: &str) -> Mem<(Text, Text)>
    ensures first { IfOk result (λ both. both.0 ≡ first.now) }
    ensures second { IfOk result (λ both. both.1 ≡ second.now) }
{
    let first = Text::new(alloc, first)?;
    let second = Text::new(alloc, second)?;
    Ok((first, second))
}

/// The comments before a definition, joined by line feeds, and its name.
fn headed(alloc: Global, comments: &[&str], name: &str) -> Mem<(Text, Text)>
    ensures comments { IfOk result (λ both. both.0 ≡ lines_joined (map (λ c. c.now) comments.now)) }
    ensures name { IfOk result (λ both. both.1 ≡ name.now) }
{
    let comments = joined(alloc, comments)?;
    let name = Text::new(alloc, name)?;
    Ok((comments, name))
}

impl ToplevelTypeDefinition {
    /// The definition of a type: the comments before it, its name, its parameters, and the type with its tag. It is
    /// not linked yet.
    pub fn from_parts(
        alloc: Global,
        comments: &[&str],
        name: &str,
        parameterization: Option<Parameterization>,
        ty: (Option<AsnTag>, ASN1Type),
    ) -> Mem<ToplevelTypeDefinition>
        ensures { IfOk result (λ made. made ≡ record {
          comments = lines_joined (map (λ c. c.now) comments.now);
          tag = ty.0;
          name = name.now;
          ty = ty.1;
          parameterization = parameterization;
          index = None;
        }) }
    {
        let (tag, ty) = ty;
        let ((comments, name), (parameterization, ty)) = beside(
            headed(alloc, comments, name),
            (parameterization, ty),
        )?;
        Ok(ToplevelTypeDefinition {
            comments,
            tag,
            name,
            ty,
            parameterization,
            index: None,
        })
    }

    /// The definition of that name, with nothing else.
    pub fn named(alloc: Global, name: &str, ty: ASN1Type) -> Mem<ToplevelTypeDefinition>
        ensures { IfOk result (λ made. made ≡ record {
          comments = [];
          tag = None;
          name = name.now;
          ty = ty;
          parameterization = None;
          index = None;
        }) }
    {
        let ((comments, name), ty) = beside(two_texts(alloc, "", name), ty)?;
        Ok(ToplevelTypeDefinition {
            comments,
            tag: None,
            name,
            ty,
            parameterization: None,
            index: None,
        })
    }
}

impl ToplevelValueDefinition {
    /// The definition of a value: the comments before it, its name, its parameters, its type and the value. It is not
    /// linked yet.
    pub fn from_parts(
        alloc: Global,
        comments: &[&str],
        name: &str,
        parameterization: Option<Parameterization>,
        associated_type: ASN1Type,
        value: ASN1Value,
    ) -> Mem<ToplevelValueDefinition>
        ensures { IfOk result (λ made. made ≡ record {
          comments = lines_joined (map (λ c. c.now) comments.now);
          name = name.now;
          associated_type = associated_type;
          parameterization = parameterization;
          value = value;
          index = None;
        }) }
    {
        let held = (parameterization, associated_type, value);
        let ((comments, name), held) = beside(headed(alloc, comments, name), held)?;
        let (parameterization, associated_type, value) = held;
        Ok(ToplevelValueDefinition {
            comments,
            name,
            associated_type,
            parameterization,
            value,
            index: None,
        })
    }

    /// The definition of that name, with its value and its type and nothing else.
    pub fn named(
        alloc: Global,
        name: &str,
        value: ASN1Value,
        associated_type: ASN1Type,
    ) -> Mem<ToplevelValueDefinition>
        ensures { IfOk result (λ made. made ≡ record {
          comments = [];
          name = name.now;
          associated_type = associated_type;
          parameterization = None;
          value = value;
          index = None;
        }) }
    {
        let ((comments, name), (value, associated_type)) = beside(
            two_texts(alloc, "", name),
            (value, associated_type),
        )?;
        Ok(ToplevelValueDefinition {
            comments,
            name,
            associated_type,
            parameterization: None,
            value,
            index: None,
        })
    }
}

impl ToplevelInformationDefinition {
    /// The definition of an object: the comments before it, its name, its parameters, the name of its class and its
    /// fields. It is not linked yet.
    pub fn from_parts(
        alloc: Global,
        comments: &[&str],
        name: &str,
        parameterization: Option<Parameterization>,
        class: &str,
        fields: InformationObjectFields,
    ) -> Mem<ToplevelInformationDefinition>
        ensures { IfOk result (λ made. made ≡ record {
          comments = lines_joined (map (λ c. c.now) comments.now);
          name = name.now;
          parameterization = parameterization;
          class = Some (ByName class.now);
          value = information.Object (record { class_name = class.now; fields = fields });
          index = None;
        }) }
    {
        let held = (parameterization, fields);
        let ((comments, name), held) = beside(headed(alloc, comments, name), held)?;
        let ((class, class_name), held) = beside(
            two_texts(alloc, class, class),
            (comments, name, held),
        )?;
        let (comments, name, (parameterization, fields)) = held;
        Ok(ToplevelInformationDefinition {
            comments,
            name,
            parameterization,
            class: Some(ClassLink::ByName(class)),
            value: ASN1Information::Object(InformationObject { class_name, fields }),
            index: None,
        })
    }

    /// The definition of an object set: the comments before it, its name, its parameters, the name of its class and
    /// the set. It is not linked yet.
    pub fn from_object_set(
        alloc: Global,
        comments: &[&str],
        name: &str,
        parameterization: Option<Parameterization>,
        class: &str,
        set: ObjectSet,
    ) -> Mem<ToplevelInformationDefinition>
        ensures { IfOk result (λ made. made ≡ record {
          comments = lines_joined (map (λ c. c.now) comments.now);
          name = name.now;
          parameterization = parameterization;
          class = Some (ByName class.now);
          value = information.ObjectSet set;
          index = None;
        }) }
    {
        let held = (parameterization, set);
        let ((comments, name), held) = beside(headed(alloc, comments, name), held)?;
        let (class, held) = beside(Text::new(alloc, class), (comments, name, held))?;
        let (comments, name, (parameterization, set)) = held;
        Ok(ToplevelInformationDefinition {
            comments,
            name,
            parameterization,
            class: Some(ClassLink::ByName(class)),
            value: ASN1Information::ObjectSet(set),
            index: None,
        })
    }

    /// The definition of a class: the comments before it, its name, its parameters and the class. It is not linked
    /// yet.
    pub fn from_class(
        alloc: Global,
        comments: &[&str],
        name: &str,
        parameterization: Option<Parameterization>,
        class: InformationObjectClass,
    ) -> Mem<ToplevelInformationDefinition>
        ensures { IfOk result (λ made. made ≡ record {
          comments = lines_joined (map (λ c. c.now) comments.now);
          name = name.now;
          parameterization = parameterization;
          class = None;
          value = information.ObjectClass class;
          index = None;
        }) }
    {
        let ((comments, name), (parameterization, class)) = beside(
            headed(alloc, comments, name),
            (parameterization, class),
        )?;
        Ok(ToplevelInformationDefinition {
            comments,
            name,
            parameterization,
            class: None,
            value: ASN1Information::ObjectClass(class),
            index: None,
        })
    }

    /// The definition of that name, with what it defines, the name of its class and nothing else.
    pub fn named(
        alloc: Global,
        name: &str,
        value: ASN1Information,
        class: &str,
    ) -> Mem<ToplevelInformationDefinition>
        ensures { IfOk result (λ made. made ≡ record {
          comments = [];
          name = name.now;
          parameterization = None;
          class = Some (ByName class.now);
          value = value;
          index = None;
        }) }
    {
        let ((comments, name), value) = beside(two_texts(alloc, "", name), value)?;
        let (class, (comments, name, value)) = beside(
            Text::new(alloc, class),
            (comments, name, value),
        )?;
        Ok(ToplevelInformationDefinition {
            comments,
            name,
            parameterization: None,
            class: Some(ClassLink::ByName(class)),
            value,
            index: None,
        })
    }
}
