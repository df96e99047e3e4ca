//! Calls on headers of modules.

ghost use Rattle.asn_calls.specs.Headers.{imported};
ghost use Rattle.std.specs.List.{find};
ghost use Rattle.std.specs.Option.{option_copied};
ghost use Rattle.std.specs.Prelude.{◌≡◌};
ghost use Rattle.std.specs.Str.{bytes_eq};

use asn_memory::Text;
use asn_tree::ModuleReference;

/// Calls on `ModuleReference`.
pub trait ModuleReferenceCalls {
    /// The first imported name, over all imports in order, that equals this one (X.680 13.1); None where none does.
    fn find_import(&self, identifier: &str) -> Option<&Text>;
}

impl ModuleReferenceCalls for ModuleReference {
    #[tactic(auto, using(crate::proofs::ImportedNames::import_steps))]
    fn find_import(&self, identifier: &str) -> Option<&Text>
        ensures { option_copied result ≡ find (λ name. bytes_eq name identifier.now) (imported self.now.imports) }
    {
        for import in self.imports.as_slice() {
            if let Some(name) = name_among(import.types.as_slice(), identifier) {
                return Some(name);
            }
        }
        None
    }
}

// The first of the names that equals this one.
fn name_among<'t>(names: &'t [Text], identifier: &str) -> Option<&'t Text>
    ensures { option_copied result ≡ find (λ name. bytes_eq name identifier.now) names.now }
{
    names.iter().find(|name| name.as_str() == identifier)
}
