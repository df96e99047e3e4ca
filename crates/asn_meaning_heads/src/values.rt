//! Values as they are met.

ghost use Rattle.asn_meaning_heads.specs.Values.{shown_value};
ghost use Rattle.asn_meaning_heads.specs.Written.{shown_written};
ghost use Rattle.asn_meaning.specs.Written.{as_written};
ghost use Rattle.std.specs.Prelude.{◌≡◌};

use crate::written::{Written, as_written};
use asn_memory::Text;
use asn_tree::ASN1Value;

/// A value: one of a tree, or one that meaning speaks of and no tree holds.
#[derive(Clone, Copy)]
pub enum ValueForm<'a> {
    Written(&'a ASN1Value),
    /// A name with nothing before it.
    Name(&'a Text),
    /// A whole number.
    Number(i128),
}

/// How a value is written.
pub fn value_written<'a>(value: ValueForm<'a>) -> Written<'a>
    ensures { shown_written result ≡ as_written (shown_value value.entry) }
{
    match value {
        ValueForm::Written(value) => as_written(value),
        ValueForm::Name(name) => Written::Name {
            parent: None,
            identifier: name,
        },
        ValueForm::Number(number) => Written::Number(number),
    }
}
