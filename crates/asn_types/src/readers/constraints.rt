//! The public readers of constraints and of what is handed to templates.
//!
//! Each reads the rule of its name where its input begins; blanks and comments may stand before it. Want of memory aside,
//! each answers `TooDeep` exactly where the height of its rule exceeds `depth`, and `Fail` exactly where it does not and
//! the rule fails: a leaf with the input unchanged and the reader's name.

ghost use Rattle.asn_read_nodes.specs.Reads.{IsFaultAt, ReadsNode};
ghost use Rattle.asn_rules.specs.declared.names.TheConstants.{CONSTRAINT, PARAMETERIZATION, PARAMETERS, SINGLE_CONSTRAINT};
ghost use Rattle.asn_text.specs.Input.{part_of};
ghost use Rattle.asn_text.specs.Part.{shown};
ghost use Rattle.asn_types.specs.Dummies.{parameterization_of};
ghost use Rattle.asn_types.specs.Reading.{constraints_of, parameters_of, single_of};
ghost use Rattle.std.specs.Prelude.{◌≡◌, codes, IfErr, IfOk, Some};

use crate::arguments::read_parameters;
use crate::constraints::{read_constraints, read_single};
use crate::dummies::read_parameterization;
use asn_memory::List;
use asn_read_nodes::read_node;
use asn_rules::names;
use asn_text::{Input, ParseFault, ParserResult};
use asn_tree::{Constraint, Parameter, Parameterization};
use std::alloc::Global;

/// The constraints behind a type, at least one, in order (X.680 49.6); the arguments of a template among them (X.683 9.1).
pub fn constraint<'a>(
    alloc: Global,
    input: Input<'a>,
    depth: usize,
) -> ParserResult<'a, List<Constraint>>
    ensures ok { IfOk result (λ read. ReadsNode CONSTRAINT depth (part_of input.entry) (part_of read.0) (λ n. constraints_of (shown (part_of input.entry)) n ≡ Some read.1)) }
    ensures err { IfErr result (IsFaultAt CONSTRAINT (codes "constraint") input.entry depth) }
{
    let text = input.inner().as_bytes();
    match read_node(alloc, input, depth, names::CONSTRAINT, "constraint") {
        Ok((rest, node)) => match read_constraints(alloc, text, &node) {
            Ok(constraints) => Ok((rest, constraints)),
            Err(_) => Err(ParseFault::OutOfMemory),
        },
        Err(fault) => Err(fault),
    }
}

/// A constraint in parentheses: what a string holds, a table, or a set of values (X.680 49.6).
pub fn single_constraint<'a>(
    alloc: Global,
    input: Input<'a>,
    depth: usize,
) -> ParserResult<'a, Constraint>
    ensures ok { IfOk result (λ read. ReadsNode SINGLE_CONSTRAINT depth (part_of input.entry) (part_of read.0) (λ n. single_of (shown (part_of input.entry)) n ≡ Some read.1)) }
    ensures err { IfErr result (IsFaultAt SINGLE_CONSTRAINT (codes "single_constraint") input.entry depth) }
{
    let text = input.inner().as_bytes();
    match read_node(
        alloc,
        input,
        depth,
        names::SINGLE_CONSTRAINT,
        "single_constraint",
    ) {
        Ok((rest, node)) => match read_single(alloc, text, &node) {
            Ok(constraint) => Ok((rest, constraint)),
            Err(_) => Err(ParseFault::OutOfMemory),
        },
        Err(fault) => Err(fault),
    }
}

/// The arguments of a template, in braces and in order (X.683 9.1).
pub fn parameters<'a>(
    alloc: Global,
    input: Input<'a>,
    depth: usize,
) -> ParserResult<'a, List<Parameter>>
    ensures ok { IfOk result (λ read. ReadsNode PARAMETERS depth (part_of input.entry) (part_of read.0) (λ n. parameters_of (shown (part_of input.entry)) n ≡ Some read.1)) }
    ensures err { IfErr result (IsFaultAt PARAMETERS (codes "parameters") input.entry depth) }
{
    let text = input.inner().as_bytes();
    match read_node(alloc, input, depth, names::PARAMETERS, "parameters") {
        Ok((rest, node)) => match read_parameters(alloc, text, &node) {
            Ok(arguments) => Ok((rest, arguments)),
            Err(_) => Err(ParseFault::OutOfMemory),
        },
        Err(fault) => Err(fault),
    }
}

/// The parameters of a template, in braces and in order (X.683 8.1).
pub fn parameterization<'a>(
    alloc: Global,
    input: Input<'a>,
    depth: usize,
) -> ParserResult<'a, Parameterization>
    ensures ok { IfOk result (λ read. ReadsNode PARAMETERIZATION depth (part_of input.entry) (part_of read.0) (λ n. parameterization_of (shown (part_of input.entry)) n ≡ Some read.1)) }
    ensures err { IfErr result (IsFaultAt PARAMETERIZATION (codes "parameterization") input.entry depth) }
{
    let text = input.inner().as_bytes();
    match read_node(
        alloc,
        input,
        depth,
        names::PARAMETERIZATION,
        "parameterization",
    ) {
        Ok((rest, node)) => match read_parameterization(alloc, text, &node) {
            Ok(dummies) => Ok((rest, dummies)),
            Err(_) => Err(ParseFault::OutOfMemory),
        },
        Err(fault) => Err(fault),
    }
}
