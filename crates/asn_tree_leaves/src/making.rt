//! Making tokens of a class's own syntax.

ghost use Rattle.asn_tree_leaves.specs.Syntax.{name_of_field, token_of};
ghost use Rattle.std.specs.Prelude.{◌≡◌, IfOk};

use crate::objects::{ObjectFieldIdentifier, SyntaxToken};
use asn_memory::{Mem, Text};
use std::alloc::Global;

/// The place of the field.
impl From<ObjectFieldIdentifier> for SyntaxToken {
    ghost use Rattle.std.specs.Prelude.{◌≡◌};
    ghost use Rattle.asn_tree_leaves.specs.declared.objects.SyntaxToken.TheVariants.{Field};

    ghost from_gives = { λ field token. token ≡ Field field };

    fn from(field: ObjectFieldIdentifier) -> SyntaxToken {
        SyntaxToken::Field(field)
    }
}

impl ObjectFieldIdentifier {
    /// The name with its `&`, taken out.
    pub fn into_name(self) -> Text
        ensures { result ≡ name_of_field self }
    {
        match self {
            ObjectFieldIdentifier::SingleValue(name) => name,
            ObjectFieldIdentifier::MultipleValue(name) => name,
        }
    }
}

impl SyntaxToken {
    /// The comma for `,`, and the word for any other text.
    pub fn from_parts(alloc: Global, text: &str) -> Mem<SyntaxToken>
        ensures { IfOk result (λ made. made ≡ token_of text.now) }
    {
        match text {
            "," => Ok(SyntaxToken::Comma),
            _ => Ok(SyntaxToken::Literal(Text::new(alloc, text)?)),
        }
    }
}
