//! What stands before the assignment in each definition: comments, a name and parameters.

ghost use Rattle.asn_read_nodes.specs.Parts.{if_there};
ghost use Rattle.asn_modules.specs.Headings.{heading_of};
ghost use Rattle.asn_rules.specs.Children.{StandsBy};
ghost use Rattle.asn_rules.specs.Nodes.{child_of};
ghost use Rattle.asn_rules.specs.Whole.{whole_rules};
ghost use Rattle.asn_rules.specs.declared.names.TheConstants.{COMMENTS, PARAMETERIZATION, SP};
ghost use Rattle.asn_types.specs.Dummies.{parameterization_of};
ghost use Rattle.std.specs.Prelude.{◌≡◌, IfOk, IsSome, Some};

use asn_memory::{Mem, Text};
use asn_read_headers::read_comments;
use asn_read_nodes::read_name;
use asn_rules::{Node, names};
use asn_tree::Parameterization;
use asn_types::read_parameterization;
use std::alloc::Global;

/// The parameters of a definition, where some stand (X.683 8.1).
fn read_parameters(alloc: Global, text: &[u8], node: &Node) -> Mem<Option<Parameterization>>
    requires { StandsBy whole_rules text.now node.now }
    ensures { IfOk result (λ read. if_there (child_of node.now PARAMETERIZATION) (parameterization_of text.now) ≡ Some read) }
{
    match node.child(names::PARAMETERIZATION) {
        Some(parameters) => Ok(Some(read_parameterization(alloc, text, parameters)?)),
        None => Ok(None),
    }
}

/// The comments before a definition, joined by line feeds, its name, and its parameters, where some stand.
pub(crate) fn read_heading(
    alloc: Global,
    text: &[u8],
    node: &Node,
    name: &Node,
) -> Mem<(Text, Text, Option<Parameterization>)>
    requires stands { StandsBy whole_rules text.now node.now }
    requires has_comments { IsSome (child_of node.now COMMENTS) }
    requires name_stands { StandsBy whole_rules text.now name.now }
    requires name_has_blanks { IsSome (child_of name.now SP) }
    ensures { IfOk result (λ heading. heading_of text.now node.now name.now ≡ Some heading) }
{
    let comments = read_comments(alloc, text, node.the_child(names::COMMENTS))?;
    let spelt = read_name(alloc, text, name)?;
    let parameters = read_parameters(alloc, text, node)?;
    Ok((comments, spelt, parameters))
}
