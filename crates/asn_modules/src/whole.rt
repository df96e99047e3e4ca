//! Whole texts.

ghost use Rattle.asn_read_nodes.specs.declared.errors.SpecError.TheVariants as fault;
ghost use Rattle.asn_tree_headers.specs.declared.headers.ModuleReference.{ModuleReference as OneHeader};
ghost use Rattle.asn_modules.specs.Whole.{IsMatchingError, IsReading};
ghost use Rattle.asn_rules.specs.Valid.{Fails, IsDeeper, IsValid};
ghost use Rattle.asn_rules.specs.Whole.{whole_rules};
ghost use Rattle.asn_text.specs.declared.report.LexerError.{LexerError as OneError};
ghost use Rattle.asn_tree.specs.declared.definitions.ToplevelDefinition.{ToplevelDefinition as OneDefinition};
ghost use Rattle.std.specs.Prelude.{◌≡◌, ℕ, List as Sequence, Err, IfOk};

use crate::modules::read_modules;
use asn_read_nodes::{SpecError, node_of};
use asn_rules::{Grammar, one_tree};
use asn_tree::Reading;
use std::alloc::Global;

/// The reading of a whole text (X.680 13.1): its modules in order, where the text is one or more modules by the grammar of
/// the whole of ASN.1 and the height of its derivation is at most `depth`.
///
/// # Errors
///
/// Want of memory aside, `Lexer` comes exactly where the height is at most `depth` and the grammar fails, and `TooDeep`
/// exactly where the height exceeds `depth`. The modules are then gone through in order: the error tells the first of name,
/// `DEFINITIONS`, `::=`, `BEGIN` and closing that does not stand, and where it is due, by byte, line and column from 1,
/// behind blanks and comments.
pub fn asn_spec(alloc: Global, source: &str, depth: usize) -> Result<Reading, SpecError>
    ensures reading { IfOk result (λ read. IsReading source.now read) }
    ensures valid { IfOk result (λ _. IsValid whole_rules source.now depth) }
    ensures matching { (e : OneError) → result ≡ Err (fault.Lexer e) → Fails whole_rules source.now depth × IsMatchingError source.now depth e }
    ensures deep { result ≡ Err fault.TooDeep → IsDeeper whole_rules source.now depth }
{
    match node_of(alloc, Grammar::Whole, source, depth) {
        Ok(node) => match read_modules(alloc, source.as_bytes(), node.children.as_slice()) {
            Ok(reading) => Ok(reading),
            Err(_) => Err(SpecError::OutOfMemory),
        },
        Err(why) => Err(why),
    }
}

/// A text has at most one reading.
pub fn one_reading()
    ensures { (text : Sequence ℕ) (r r' : Sequence (OneHeader × Sequence OneDefinition)) → IsReading text r → IsReading text r' → r ≡ r' }
{
    one_tree();
}
