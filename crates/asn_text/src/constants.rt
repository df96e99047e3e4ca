//! Words and marks of ASN.1, by their names (X.680 12).
//!
//! Data alone, which a user of the library may name. No code of the crates stands on it; the tests compare each constant
//! with its text.

// Reserved words, in the order of `ASN1_KEYWORDS` (X.680 12.38). A space stands between two that go together.

pub const ABSTRACT_SYNTAX: &str = "ABSTRACT-SYNTAX";

pub const BIT: &str = "BIT";

pub const CHARACTER: &str = "CHARACTER";

pub const CONTAINING: &str = "CONTAINING";

pub const DATE: &str = "DATE";

pub const DATE_TIME: &str = "DATE-TIME";

pub const DURATION: &str = "DURATION";

pub const EMBEDDED_PDV: &str = "EMBEDDED PDV";

pub const EXTERNAL: &str = "EXTERNAL";

pub const INSTANCE_OF: &str = "INSTANCE OF";

pub const MINUS_INFINITY: &str = "MINUS-INFINITY";

pub const NOT_A_NUMBER: &str = "NOT-A-NUMBER";

pub const OBJECT: &str = "OBJECT";

pub const OCTET: &str = "OCTET";

pub const OID_IRI: &str = "OID-IRI";

pub const PLUS_INFINITY: &str = "PLUS-INFINITY";

pub const RELATIVE_OID: &str = "RELATIVE-OID";

pub const RELATIVE_OID_IRI: &str = "RELATIVE-OID-IRI";

pub const TIME: &str = "TIME";

pub const TIME_OF_DAY: &str = "TIME-OF-DAY";

pub const TYPE_IDENTIFIER: &str = "TYPE-IDENTIFIER";

pub const SIZE: &str = "SIZE";

pub const DEFAULT: &str = "DEFAULT";

pub const OPTIONAL: &str = "OPTIONAL";

pub const WITH_COMPONENTS: &str = "WITH COMPONENTS";

pub const WITH_COMPONENT: &str = "WITH COMPONENT";

pub const UNION: &str = "UNION";

pub const EXCEPT: &str = "EXCEPT";

pub const INTERSECTION: &str = "INTERSECTION";

pub const ABSENT: &str = "ABSENT";

pub const PRESENT: &str = "PRESENT";

pub const INCLUDES: &str = "INCLUDES";

pub const MIN: &str = "MIN";

pub const MAX: &str = "MAX";

pub const CLASS: &str = "CLASS";

pub const UNIQUE: &str = "UNIQUE";

pub const WITH_SYNTAX: &str = "WITH SYNTAX";

pub const NULL: &str = "NULL";

pub const BOOLEAN: &str = "BOOLEAN";

pub const INTEGER: &str = "INTEGER";

pub const REAL: &str = "REAL";

pub const ENUMERATED: &str = "ENUMERATED";

pub const CHOICE: &str = "CHOICE";

pub const SEQUENCE: &str = "SEQUENCE";

pub const OF: &str = "OF";

pub const ALL: &str = "ALL";

pub const SET: &str = "SET";

pub const OBJECT_IDENTIFIER: &str = "OBJECT IDENTIFIER";

pub const UNIVERSAL: &str = "UNIVERSAL";

pub const PRIVATE: &str = "PRIVATE";

pub const APPLICATION: &str = "APPLICATION";

pub const TRUE: &str = "TRUE";

pub const FALSE: &str = "FALSE";

pub const BEGIN: &str = "BEGIN";

pub const END: &str = "END";

pub const DEFINITIONS: &str = "DEFINITIONS";

pub const AUTOMATIC: &str = "AUTOMATIC";

pub const EXPLICIT: &str = "EXPLICIT";

pub const IMPLICIT: &str = "IMPLICIT";

pub const IMPORTS: &str = "IMPORTS";

pub const FROM: &str = "FROM";

pub const INSTRUCTIONS: &str = "INSTRUCTIONS";

pub const TAGS: &str = "TAGS";

// Words that go together, and words that are read at one place alone.

pub const BIT_STRING: &str = "BIT STRING";

pub const OCTET_STRING: &str = "OCTET STRING";

pub const SEQUENCE_OF: &str = "SEQUENCE OF";

pub const SET_OF: &str = "SET OF";

pub const COMPONENTS_OF: &str = "COMPONENTS OF";

pub const EXPORTS: &str = "EXPORTS";

pub const EXTENSIBILITY_IMPLIED: &str = "EXTENSIBILITY IMPLIED";

pub const WITH_SUCCESSORS: &str = "WITH SUCCESSORS";

pub const WITH_DESCENDANTS: &str = "WITH DESCENDANTS";

pub const CONSTRAINED_BY: &str = "CONSTRAINED BY";

pub const PATTERN: &str = "PATTERN";

pub const ENCODED_BY: &str = "ENCODED BY";

pub const ENCODING_CONTROL: &str = "ENCODING-CONTROL";

// Types of text and of time.

pub const IA5_STRING: &str = "IA5String";

pub const UTF8_STRING: &str = "UTF8String";

pub const NUMERIC_STRING: &str = "NumericString";

pub const VISIBLE_STRING: &str = "VisibleString";

pub const TELETEX_STRING: &str = "TeletexString";

pub const VIDEOTEX_STRING: &str = "VideotexString";

pub const GRAPHIC_STRING: &str = "GraphicString";

pub const GENERAL_STRING: &str = "GeneralString";

pub const UNIVERSAL_STRING: &str = "UniversalString";

pub const BMP_STRING: &str = "BMPString";

pub const PRINTABLE_STRING: &str = "PrintableString";

pub const GENERALIZED_TIME: &str = "GeneralizedTime";

pub const UTC_TIME: &str = "UTCTime";

// Marks of more than one byte, and signs of set operations.

pub const BLOCK_COMMENT_START: &str = "/*";

pub const BLOCK_COMMENT_END: &str = "*/";

pub const LINE_COMMENT: &str = "--";

pub const PIPE: &str = "|";

pub const CARET: &str = "^";

pub const ASSIGN: &str = "::=";

pub const RANGE: &str = "..";

pub const ELLIPSIS: &str = "...";

// Marks of one byte.

pub const LEFT_PARENTHESIS: char = '(';

pub const RIGHT_PARENTHESIS: char = ')';

pub const LEFT_BRACKET: char = '[';

pub const RIGHT_BRACKET: char = ']';

pub const LEFT_BRACE: char = '{';

pub const RIGHT_BRACE: char = '}';

pub const LEFT_CHEVRON: char = '<';

pub const LESS_THAN: char = '<';

pub const RIGHT_CHEVRON: char = '>';

pub const GREATER_THAN: char = '>';

pub const SEMICOLON: char = ';';

pub const AMPERSAND: char = '&';

pub const AT: char = '@';

pub const DOT: char = '.';

pub const COMMA: char = ',';

pub const COLON: char = ':';

pub const SINGLE_QUOTE: char = '\'';
