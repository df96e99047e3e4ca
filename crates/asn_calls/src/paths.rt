//! Calls on the names of fields, and on the paths that they make.

ghost use Rattle.asn_tree_notation.specs.Paths.{field_name, path};
ghost use Rattle.std.specs.Prelude.{◌≡◌, IfOk};

use asn_memory::{Mem, Text};
use asn_tree::{InformationObjectFieldReference, ObjectFieldIdentifier};
use std::alloc::Global;

/// Calls on `ObjectFieldIdentifier`.
pub trait ObjectFieldIdentifierCalls {
    /// The name with its `&`.
    fn identifier(&self) -> &Text;
}

impl ObjectFieldIdentifierCalls for ObjectFieldIdentifier {
    fn identifier(&self) -> &Text
        ensures { result.now ≡ field_name self.now }
    {
        match self {
            ObjectFieldIdentifier::SingleValue(name) => name,
            ObjectFieldIdentifier::MultipleValue(name) => name,
        }
    }
}

/// Calls on `InformationObjectFieldReference`.
pub trait InformationObjectFieldReferenceCalls {
    /// The fields' names with `$` between.
    fn field_path_as_str(&self, alloc: Global) -> Mem<Text>;
}

impl InformationObjectFieldReferenceCalls for InformationObjectFieldReference {
    fn field_path_as_str(&self, alloc: Global) -> Mem<Text>
        ensures { IfOk result (λ text. text ≡ path self.now.field_path) }
    {
        let mut text = Text::new(alloc, "")?;
        let Some((first, others)) = self.field_path.as_slice().split_first() else {
            return Ok(text);
        };
        text.push_str(first.identifier().as_str())?;
        for field in others {
            text.push_str("$")?;
            text.push_str(field.identifier().as_str())?;
        }
        Ok(text)
    }
}
