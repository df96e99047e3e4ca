//! The trees of types, parameters, classes and objects at offsets of a packrat table.
//!
//! Each asks for a table of the text in which each entry is right and all that was tried for an entry has one, as
//! `match_rule` of asn_match answers it, and for an offset, in bytes from the start of the text, where its rule has ended. It
//! tries nothing.

ghost use Rattle.asn_read_nodes.specs.Reads.{BuiltAt, Offers};
ghost use Rattle.asn_rules.specs.declared.names.TheConstants.{ASN1_TYPE, INFORMATION_OBJECT, INFORMATION_OBJECT_CLASS, OBJECT_SET, PARAMETERIZATION, TYPE_IDENTIFIER};
ghost use Rattle.asn_types.specs.Classes as classes;
ghost use Rattle.asn_types.specs.Dummies.{parameterization_of};
ghost use Rattle.asn_types.specs.Reading.{object_of, object_set_of, type_of};
ghost use Rattle.std.specs.Prelude.{◌≡◌, IfOk, Some};

use crate::classes::{built_in_class, read_class};
use crate::dummies::read_parameterization;
use crate::objects::{read_object, read_object_set};
use crate::types::read_type;
use asn_match::MatchTable;
use asn_memory::Mem;
use asn_read_nodes::node_at;
use asn_rules::names;
use asn_tree::{
    ASN1Type, InformationObjectClass, InformationObjectFields, ObjectSet, Parameterization,
};
use std::alloc::Global;

/// The type of any form that stands there (X.680 17.1).
pub fn asn1_type_at(alloc: Global, text: &str, table: &MatchTable, offset: usize) -> Mem<ASN1Type>
    requires { Offers text.now table.now ASN1_TYPE offset }
    ensures { IfOk result (λ made. BuiltAt ASN1_TYPE text.now offset (λ n. type_of text.now n ≡ Some made)) }
{
    match node_at(alloc, text, table, names::ASN1_TYPE, offset) {
        Ok(node) => match read_type(alloc, text.as_bytes(), &node) {
            Ok(made) => Ok(made),
            Err(fault) => Err(fault),
        },
        Err(fault) => Err(fault),
    }
}

/// The parameters of a template that stand there, in order (X.683 8.1).
pub fn parameterization_at(
    alloc: Global,
    text: &str,
    table: &MatchTable,
    offset: usize,
) -> Mem<Parameterization>
    requires { Offers text.now table.now PARAMETERIZATION offset }
    ensures { IfOk result (λ made. BuiltAt PARAMETERIZATION text.now offset (λ n. parameterization_of text.now n ≡ Some made)) }
{
    match node_at(alloc, text, table, names::PARAMETERIZATION, offset) {
        Ok(node) => match read_parameterization(alloc, text.as_bytes(), &node) {
            Ok(made) => Ok(made),
            Err(fault) => Err(fault),
        },
        Err(fault) => Err(fault),
    }
}

/// The set of objects that stands there (X.681 12.3).
pub fn object_set_at(alloc: Global, text: &str, table: &MatchTable, offset: usize) -> Mem<ObjectSet>
    requires { Offers text.now table.now OBJECT_SET offset }
    ensures { IfOk result (λ made. BuiltAt OBJECT_SET text.now offset (λ n. object_set_of text.now n ≡ Some made)) }
{
    match node_at(alloc, text, table, names::OBJECT_SET, offset) {
        Ok(node) => match read_object_set(alloc, text.as_bytes(), &node) {
            Ok(made) => Ok(made),
            Err(fault) => Err(fault),
        },
        Err(fault) => Err(fault),
    }
}

/// The object that stands there (X.681 11.4).
pub fn information_object_at(
    alloc: Global,
    text: &str,
    table: &MatchTable,
    offset: usize,
) -> Mem<InformationObjectFields>
    requires { Offers text.now table.now INFORMATION_OBJECT offset }
    ensures { IfOk result (λ made. BuiltAt INFORMATION_OBJECT text.now offset (λ n. object_of text.now n ≡ Some made)) }
{
    match node_at(alloc, text, table, names::INFORMATION_OBJECT, offset) {
        Ok(node) => match read_object(alloc, text.as_bytes(), &node) {
            Ok(made) => Ok(made),
            Err(fault) => Err(fault),
        },
        Err(fault) => Err(fault),
    }
}

/// The class TYPE-IDENTIFIER, whose name stands there (X.681 A.2).
pub fn type_identifier_at(
    alloc: Global,
    text: &str,
    table: &MatchTable,
    offset: usize,
) -> Mem<InformationObjectClass>
    requires { Offers text.now table.now TYPE_IDENTIFIER offset }
    ensures { IfOk result (λ made. BuiltAt TYPE_IDENTIFIER text.now offset (λ n. made ≡ classes.type_identifier)) }
{
    match node_at(alloc, text, table, names::TYPE_IDENTIFIER, offset) {
        Ok(_) => match built_in_class(alloc) {
            Ok(made) => Ok(made),
            Err(fault) => Err(fault),
        },
        Err(fault) => Err(fault),
    }
}

/// The class that stands there (X.681 9.3).
pub fn information_object_class_at(
    alloc: Global,
    text: &str,
    table: &MatchTable,
    offset: usize,
) -> Mem<InformationObjectClass>
    requires { Offers text.now table.now INFORMATION_OBJECT_CLASS offset }
    ensures { IfOk result (λ made. BuiltAt INFORMATION_OBJECT_CLASS text.now offset (λ n. classes.class_of text.now n ≡ Some made)) }
{
    match node_at(alloc, text, table, names::INFORMATION_OBJECT_CLASS, offset) {
        Ok(node) => match read_class(alloc, text.as_bytes(), &node) {
            Ok(made) => Ok(made),
            Err(fault) => Err(fault),
        },
        Err(fault) => Err(fault),
    }
}
