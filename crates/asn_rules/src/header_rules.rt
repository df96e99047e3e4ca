//! Rules 162 to 180: the headers of modules.
//!
//! The words of a row are explained in `lexical_rules.rt`; `'X'` skips blanks and comments, and then stands as a whole
//! word, and `words(A, B)` is one of these words behind blanks and comments. `whole.rt` alone calls this file.

ghost use Rattle.std.specs.Prelude.{◌≡◌, ◌≤◌, ◌-◌, List};
ghost use Rattle.asn_rules.specs.Expression.{Expression as Row, expression, rule_of};
ghost use Rattle.asn_rules.specs.HeaderRules.{header_rules_before};

use crate::expression::Expression;
use crate::expression::Expression::{Call, Guarded, Many, Not};
use crate::forms::{
    ALNUM, ANY, BLANKS, EMPTY, GAP, LABEL_MARK, LETTER, bytes, choice, keyword, keyword_as, option,
    seq, some, symbol, words,
};
use crate::marks::Mark;
use crate::names::{
    ASSIGNED_IDENTIFIER, ASSIGNMENT, BRACE_GROUP, DEFINITIVE, ENCODING_CONTROL, ENCODING_REFERENCE,
    ENCODING_TEXT, ENVIRONMENTS, EXPORTS, FOLLOW, GLOBAL_MODULE_REFERENCE, IDENTIFIER, IMPORT,
    IMPORTED_SYMBOL, IMPORTS, IRI_LABELS, IRI_VALUE, ITEM_COMMENT, NAME_TAIL,
    OBJECT_IDENTIFIER_VALUE, SYMBOL_LIST, TAG_DEFAULT, VALUE_IDENTIFIER,
};
use asn_rules_guards::{Guard, Sight};

// 162 iri_labels = (alnum / one of -_~./)+ {no empty label between slashes}
static RULE_162: Expression = Guarded(&some!(choice!(ALNUM, LABEL_MARK)), Guard::HasLabels);
// 163 iri_value = sp `"/` iri_labels `"`
static RULE_163: Expression = seq!(BLANKS, bytes!(b"\"/"), Call(IRI_LABELS), bytes!(b"\""));
// 164 definitive = object_identifier_value iri_value?
static RULE_164: Expression = seq!(Call(OBJECT_IDENTIFIER_VALUE), option!(Call(IRI_VALUE)));
// 165 encoding_reference = identifier 'INSTRUCTIONS'
static RULE_165: Expression = seq!(Call(IDENTIFIER), keyword!(b"INSTRUCTIONS"));
// 166 tag_default = words(AUTOMATIC, IMPLICIT, EXPLICIT) 'TAGS'
static RULE_166: Expression = seq!(
    words!(
        (Automatic, b"AUTOMATIC"),
        (Implicit, b"IMPLICIT"),
        (Explicit, b"EXPLICIT")
    ),
    keyword!(b"TAGS")
);
// 167 environments = encoding_reference? tag_default? ('EXTENSIBILITY' 'IMPLIED')?
static RULE_167: Expression = seq!(
    option!(Call(ENCODING_REFERENCE)),
    option!(Call(TAG_DEFAULT)),
    option!(seq!(
        keyword!(b"EXTENSIBILITY"),
        keyword_as!(Extensibility, b"IMPLIED")
    ))
);
// 168 imported_symbol = identifier "{" "}" / identifier
static RULE_168: Expression = choice!(
    seq!(Call(IDENTIFIER), symbol!(b"{"), symbol!(b"}")),
    Call(IDENTIFIER)
);
// 169 symbol_list = imported_symbol ("," imported_symbol)*
static RULE_169: Expression = seq!(
    Call(IMPORTED_SYMBOL),
    Many(&seq!(symbol!(b","), Call(IMPORTED_SYMBOL)))
);
// 170 exports = 'EXPORTS' ('ALL' / symbol_list)? ";"
static RULE_170: Expression = seq!(
    keyword!(b"EXPORTS"),
    option!(choice!(keyword_as!(All, b"ALL"), Call(SYMBOL_LIST))),
    symbol!(b";")
);
// 171 follow = 'FROM' / ","
static RULE_171: Expression = choice!(keyword!(b"FROM"), symbol!(b","));
// 172 assigned_identifier = object_identifier_value / identifier "." value_identifier / value_identifier sp brace_group !follow / value_identifier !follow / !follow
static RULE_172: Expression = choice!(
    Call(OBJECT_IDENTIFIER_VALUE),
    seq!(Call(IDENTIFIER), symbol!(b"."), Call(VALUE_IDENTIFIER)),
    seq!(
        Call(VALUE_IDENTIFIER),
        BLANKS,
        Call(BRACE_GROUP),
        Not(&Call(FOLLOW))
    ),
    seq!(Call(VALUE_IDENTIFIER), Not(&Call(FOLLOW))),
    Not(&Call(FOLLOW))
);
// 173 global_module_reference = identifier assigned_identifier
static RULE_173: Expression = seq!(Call(IDENTIFIER), Call(ASSIGNED_IDENTIFIER));
// 174 import = symbol_list 'FROM' global_module_reference ('WITH' words(SUCCESSORS, DESCENDANTS))?
static RULE_174: Expression = seq!(
    Call(SYMBOL_LIST),
    keyword!(b"FROM"),
    Call(GLOBAL_MODULE_REFERENCE),
    option!(seq!(
        keyword!(b"WITH"),
        words!((Successors, b"SUCCESSORS"), (Descendants, b"DESCENDANTS"))
    ))
);
// 175 imports = 'IMPORTS' import* ";"
static RULE_175: Expression = seq!(keyword!(b"IMPORTS"), Many(&Call(IMPORT)), symbol!(b";"));
// 176 module_reference = identifier definitive? 'DEFINITIONS' environments assignment 'BEGIN' exports? imports?
static RULE_176: Expression = seq!(
    Call(IDENTIFIER),
    option!(Call(DEFINITIVE)),
    keyword!(b"DEFINITIONS"),
    Call(ENVIRONMENTS),
    Call(ASSIGNMENT),
    keyword!(b"BEGIN"),
    option!(Call(EXPORTS)),
    option!(Call(IMPORTS))
);
// 177 encoding_text = (!'END' (letter name_tail / any))*
static RULE_177: Expression = Many(&seq!(
    Not(&keyword!(b"END")),
    choice!(seq!(LETTER, Call(NAME_TAIL)), ANY)
));
// 178 encoding_control = 'ENCODING-CONTROL' encoding_text 'END'
static RULE_178: Expression = seq!(
    keyword!(b"ENCODING-CONTROL"),
    Call(ENCODING_TEXT),
    keyword!(b"END")
);
// 179 end = 'END' / encoding_control
static RULE_179: Expression = choice!(keyword!(b"END"), Call(ENCODING_CONTROL));
// 180 comments = item_comment*
static RULE_180: Expression = Many(&Call(ITEM_COMMENT));

// The row of one of these rules.
#[tactic(auto, unfolding(crate::specs::HeaderRules::header_rules_before))]
pub(crate) fn header_row(rule: u8) -> &'static Expression
    requires first { 162 ≤ rule }
    requires last { rule ≤ 180 }
    ensures { (further : List Row) → expression result.now ≡ rule_of (header_rules_before further) (rule - 162) }
{
    match rule {
        162 => &RULE_162,
        163 => &RULE_163,
        164 => &RULE_164,
        165 => &RULE_165,
        166 => &RULE_166,
        167 => &RULE_167,
        168 => &RULE_168,
        169 => &RULE_169,
        170 => &RULE_170,
        171 => &RULE_171,
        172 => &RULE_172,
        173 => &RULE_173,
        174 => &RULE_174,
        175 => &RULE_175,
        176 => &RULE_176,
        177 => &RULE_177,
        178 => &RULE_178,
        179 => &RULE_179,
        180 => &RULE_180,
        0..=161 | 181..=255 => unreachable!(),
    }
}
