//! Words of more than ten letters.

ghost use Rattle.asn_check_listing.specs.LongWords.{components_of_word, constrained_by_word, containing_word, encoded_by_word, generalized_time_word, object_identifier_word, octet_string_word, with_component_word, with_components_word, with_syntax_word};
ghost use Rattle.std.specs.Prelude.{◌≡◌};

#[tactic(auto, unfolding(crate::specs::LongWords::octet_string_word))]
pub(crate) fn octet_string_word() -> &'static str
    ensures { result.now ≡ octet_string_word }
{
    "OCTET STRING"
}

#[tactic(auto, unfolding(crate::specs::LongWords::generalized_time_word))]
pub(crate) fn generalized_time_word() -> &'static str
    ensures { result.now ≡ generalized_time_word }
{
    "GeneralizedTime"
}

#[tactic(auto, unfolding(crate::specs::LongWords::object_identifier_word))]
pub(crate) fn object_identifier_word() -> &'static str
    ensures { result.now ≡ object_identifier_word }
{
    "OBJECT IDENTIFIER"
}

#[tactic(auto, unfolding(crate::specs::LongWords::components_of_word))]
pub(crate) fn components_of_word() -> &'static str
    ensures { result.now ≡ components_of_word }
{
    "COMPONENTS OF "
}

#[tactic(auto, unfolding(crate::specs::LongWords::with_component_word))]
pub(crate) fn with_component_word() -> &'static str
    ensures { result.now ≡ with_component_word }
{
    "WITH COMPONENT"
}

#[tactic(auto, unfolding(crate::specs::LongWords::with_components_word))]
pub(crate) fn with_components_word() -> &'static str
    ensures { result.now ≡ with_components_word }
{
    "WITH COMPONENTS"
}

#[tactic(auto, unfolding(crate::specs::LongWords::containing_word))]
pub(crate) fn containing_word() -> &'static str
    ensures { result.now ≡ containing_word }
{
    "CONTAINING "
}

#[tactic(auto, unfolding(crate::specs::LongWords::encoded_by_word))]
pub(crate) fn encoded_by_word() -> &'static str
    ensures { result.now ≡ encoded_by_word }
{
    "ENCODED BY "
}

#[tactic(auto, unfolding(crate::specs::LongWords::constrained_by_word))]
pub(crate) fn constrained_by_word() -> &'static str
    ensures { result.now ≡ constrained_by_word }
{
    "CONSTRAINED BY {"
}

#[tactic(auto, unfolding(crate::specs::LongWords::with_syntax_word))]
pub(crate) fn with_syntax_word() -> &'static str
    ensures { result.now ≡ with_syntax_word }
{
    " WITH SYNTAX {"
}
