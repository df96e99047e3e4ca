//! Definitions of a module (X.680 clause 16), with their parameters (X.683 clause 8), and readings of whole texts.

ghost use Rattle.asn_tree.specs.Calls.{index_of, name_of, numbered};
ghost use Rattle.std.specs.Prelude.{◌≡◌};

use crate::objects::{ASN1Information, ClassLink};
use crate::types::ASN1Type;
use crate::values::ASN1Value;
use asn_memory::{List, Text};
use asn_tree_headers::{AsnTag, ModuleReference};

/// The modules of a text in order, each with its definitions in order.
pub type Reading = List<(ModuleReference, List<ToplevelDefinition>)>;

/// A definition.
pub enum ToplevelDefinition {
    /// A type assignment (X.680 16.1).
    TypeDef(ToplevelTypeDefinition),
    /// A value assignment (X.680 16.2).
    Value(ToplevelValueDefinition),
    /// An assignment of a class, an object or an object set (X.681 9.1, 11.1, 12.1).
    Information(ToplevelInformationDefinition),
}

impl Drop for ToplevelDefinition {
    fn drop(self) {
        match self {
            ToplevelDefinition::TypeDef(_) => (),
            ToplevelDefinition::Value(_) => (),
            ToplevelDefinition::Information(_) => (),
        }
    }
}

impl ToplevelDefinition {
    /// The definition's name.
    pub fn name(&self) -> &Text
        ensures { result.now ≡ name_of self.now }
    {
        match self {
            ToplevelDefinition::TypeDef(definition) => &definition.name,
            ToplevelDefinition::Value(definition) => &definition.name,
            ToplevelDefinition::Information(definition) => &definition.name,
        }
    }

    /// The number of its module and its number in that module, both from 0; None until it is linked.
    pub fn get_index(&self) -> Option<(usize, usize)>
        ensures { result ≡ index_of self.now }
    {
        match self {
            ToplevelDefinition::TypeDef(definition) => definition.index,
            ToplevelDefinition::Value(definition) => definition.index,
            ToplevelDefinition::Information(definition) => definition.index,
        }
    }

    /// Sets both numbers.
    pub fn set_index(&mut self, module: usize, item: usize)
        ensures { self.new ≡ numbered «module» item self.old }
    {
        match self {
            ToplevelDefinition::TypeDef(definition) => definition.index = Some((module, item)),
            ToplevelDefinition::Value(definition) => definition.index = Some((module, item)),
            ToplevelDefinition::Information(definition) => definition.index = Some((module, item)),
        }
    }
}

/// A type definition.
pub struct ToplevelTypeDefinition {
    /// The comments before it, joined by line feeds.
    pub comments: Text,
    pub tag: Option<AsnTag>,
    pub name: Text,
    pub ty: ASN1Type,
    pub parameterization: Option<Parameterization>,
    /// The number of its module and its number in that module, both from 0; None until it is linked.
    pub index: Option<(usize, usize)>,
}

impl Drop for ToplevelTypeDefinition {
    fn drop(self) {
        let ToplevelTypeDefinition {
            comments: _,
            tag: _,
            name: _,
            ty: _,
            parameterization: _,
            index: _,
        } = self;
    }
}

/// A value definition.
pub struct ToplevelValueDefinition {
    /// The comments before it, joined by line feeds.
    pub comments: Text,
    pub name: Text,
    /// The type before the assignment.
    pub associated_type: ASN1Type,
    pub parameterization: Option<Parameterization>,
    pub value: ASN1Value,
    /// The number of its module and its number in that module, both from 0; None until it is linked.
    pub index: Option<(usize, usize)>,
}

impl Drop for ToplevelValueDefinition {
    fn drop(self) {
        let ToplevelValueDefinition {
            comments: _,
            name: _,
            associated_type: _,
            parameterization: _,
            value: _,
            index: _,
        } = self;
    }
}

/// The definition of a class, an object or an object set.
pub struct ToplevelInformationDefinition {
    /// The comments before it, joined by line feeds.
    pub comments: Text,
    pub name: Text,
    pub parameterization: Option<Parameterization>,
    /// The class of an object or an object set; None for a class.
    pub class: Option<ClassLink>,
    pub value: ASN1Information,
    /// The number of its module and its number in that module, both from 0; None until it is linked.
    pub index: Option<(usize, usize)>,
}

impl Drop for ToplevelInformationDefinition {
    fn drop(self) {
        let ToplevelInformationDefinition {
            comments: _,
            name: _,
            parameterization: _,
            class: _,
            value: _,
            index: _,
        } = self;
    }
}

/// The parameters of a definition (X.683 8.1).
pub struct Parameterization {
    pub parameters: List<ParameterizationArgument>,
}

impl Drop for Parameterization {
    fn drop(self) {
        let Parameterization { parameters: _ } = self;
    }
}

/// A dummy reference with its governor (X.683 8.1).
pub struct ParameterizationArgument {
    pub dummy_reference: Text,
    pub param_governor: ParameterGovernor,
}

impl Drop for ParameterizationArgument {
    fn drop(self) {
        let ParameterizationArgument {
            dummy_reference: _,
            param_governor: _,
        } = self;
    }
}

/// What governs a dummy reference (X.683 8.1).
pub enum ParameterGovernor {
    /// Nothing: the dummy stands for a type or a class.
    None,
    /// A type, whose values the dummy stands for; or a class.
    TypeOrClass(ASN1Type),
    /// A class.
    Class(Text),
}

impl Drop for ParameterGovernor {
    fn drop(self) {
        match self {
            ParameterGovernor::None => (),
            ParameterGovernor::TypeOrClass(_) => (),
            ParameterGovernor::Class(_) => (),
        }
    }
}
