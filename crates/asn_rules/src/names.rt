//! The numbers of the rules, by their names.
//!
//! The readers above name a node's rule by these, in code and in contracts.

/// Blanks and comments, or none.
pub const SP: u8 = 1;
/// A comment.
pub const COMMENT: u8 = 2;
/// A comment from `/*` to its `*/`.
pub const BLOCK_COMMENT: u8 = 3;
/// What stands within a block comment.
pub const COMMENT_BODY: u8 = 4;
/// A comment from `--` to the next, or to the end of the line.
pub const LINE_COMMENT: u8 = 5;
/// What stands within a line comment.
pub const LINE_BODY: u8 = 6;
/// What follows the first letter of a name.
pub const NAME_TAIL: u8 = 7;
/// A name, with the blanks and comments before it.
pub const IDENTIFIER: u8 = 8;
/// The name of a type, no reserved word.
pub const TITLE_CASE_IDENTIFIER: u8 = 9;
/// A name that begins with a lower-case letter.
pub const VALUE_IDENTIFIER: u8 = 10;
/// What follows the first character of a name in capitals.
pub const CAPS_TAIL: u8 = 11;
/// A name in capitals.
pub const UPPERCASE_IDENTIFIER: u8 = 12;
/// The name of a class.
pub const CLASS_NAME: u8 = 13;
/// At least one digit.
pub const DIGITS: u8 = 14;
/// A whole number from 0 to 2^64 - 1.
pub const NUMBER_U64: u8 = 15;
/// A whole number from 0 to 2^128 - 1.
pub const NUMBER_U128: u8 = 16;
/// A whole number from -2^127 to 2^127 - 1.
pub const NUMBER_I128: u8 = 17;
/// A whole number from -2^31 to 2^31 - 1.
pub const NUMBER_I32: u8 = 18;
/// A comma, or none.
pub const OPTIONAL_COMMA: u8 = 19;
/// The `..` of a range.
pub const RANGE_SEPERATOR: u8 = 20;
/// The `...` of an extension.
pub const EXTENSION_MARKER: u8 = 21;
/// The `::=` of a declaration.
pub const ASSIGNMENT: u8 = 22;
/// The value ALL.
pub const ALL_VALUE: u8 = 23;
/// The value NULL.
pub const NULL_VALUE: u8 = 24;
/// An object identifier in braces.
pub const OBJECT_IDENTIFIER_VALUE: u8 = 25;
/// An arc of an object identifier: a number, a name, or both.
pub const OBJECT_IDENTIFIER_ARC: u8 = 26;
/// The name of an alternative and its value.
pub const CHOICE_VALUE: u8 = 27;
/// A number with a point.
pub const DOT_NOTATION: u8 = 28;
/// The exponent of a number with a point.
pub const EXPONENT: u8 = 29;
/// A real number by mantissa, base and exponent.
pub const MBE_NOTATION: u8 = 30;
/// The base of a real number, 2 or 10.
pub const REAL_BASE: u8 = 31;
/// A value of REAL.
pub const REAL_VALUE: u8 = 32;
/// The values of members or elements, in braces.
pub const SEQUENCE_VALUE: u8 = 33;
/// The values between the braces.
pub const VALUE_LIST: u8 = 34;
/// A value, or a member's name and its value.
pub const STRUCT_ITEM: u8 = 35;
/// The characters of a time.
pub const TIME_CHARS: u8 = 36;
/// A time in quotes.
pub const TIME_VALUE: u8 = 37;
/// Bits, one by one.
pub const BINARY: u8 = 38;
/// Bits, four by four.
pub const HEXADECIMAL: u8 = 39;
/// Names of bits, parted by commas.
pub const NAME_LIST: u8 = 40;
/// Names of bits, in braces.
pub const NAMED_BITS: u8 = 41;
/// A value of BIT STRING or OCTET STRING.
pub const BIT_STRING_VALUE: u8 = 42;
/// A value of BOOLEAN.
pub const BOOLEAN_VALUE: u8 = 43;
/// A value of INTEGER.
pub const INTEGER_VALUE: u8 = 44;
/// What stands between the quotes of a text.
pub const QUOTED_BODY: u8 = 45;
/// A text in quotes.
pub const QUOTED: u8 = 46;
/// A whole number from 0 to 255.
pub const OCTET_NUMBER: u8 = 47;
/// A character by four numbers.
pub const QUADRUPLE: u8 = 48;
/// A value of a character string type.
pub const CHARACTER_STRING_VALUE: u8 = 49;
/// The name of an object, and the mark of a field behind it.
pub const PATH_STEP: u8 = 50;
/// The objects before the last name of a path.
pub const VALUE_PATH: u8 = 51;
/// A value by its name.
pub const ELSEWHERE_DECLARED_VALUE: u8 = 52;
/// A value.
pub const ASN1_VALUE: u8 = 53;
/// The NULL type.
pub const NULL: u8 = 54;
/// The type of an alternative of a CHOICE.
pub const SELECTION_TYPE_CHOICE: u8 = 55;
/// An OBJECT IDENTIFIER or RELATIVE-OID type.
pub const OBJECT_IDENTIFIER: u8 = 56;
/// The type of the elements of a list, perhaps with a name.
pub const ELEMENT: u8 = 57;
/// A SEQUENCE OF type.
pub const SEQUENCE_OF: u8 = 58;
/// A SET OF type.
pub const SET_OF: u8 = 59;
/// A SEQUENCE type.
pub const SEQUENCE: u8 = 60;
/// A SET type.
pub const SET: u8 = 61;
/// The components in braces.
pub const STRUCT_BODY: u8 = 62;
/// An extension marker and a comma, if one stands there.
pub const EXTENSION_MARK: u8 = 63;
/// The components before the extension marker.
pub const COMPONENT_LIST: u8 = 64;
/// The components behind the extension marker.
pub const ADDITION_LIST: u8 = 65;
/// Components in double brackets.
pub const EXTENSION_GROUP: u8 = 66;
/// The number of a group.
pub const GROUP_NUMBER: u8 = 67;
/// The type whose components are taken over.
pub const COMPONENT_PATH: u8 = 68;
/// A component.
pub const SEQUENCE_COMPONENT: u8 = 69;
/// A member: its name, its type and what belongs to them.
pub const SEQUENCE_OR_SET_MEMBER: u8 = 70;
/// The word OPTIONAL, or none.
pub const OPTIONAL_MARKER: u8 = 71;
/// The default value, or none.
pub const DEFAULT: u8 = 72;
/// A tag.
pub const ASN_TAG: u8 = 73;
/// The UTCTime type.
pub const UTC_TIME: u8 = 74;
/// The EXTERNAL type.
pub const EXTERNAL: u8 = 75;
/// The EMBEDDED PDV type.
pub const EMBEDDED_PDV: u8 = 76;
/// An INSTANCE OF type.
pub const INSTANCE_OF: u8 = 77;
/// The GeneralizedTime type.
pub const GENERALIZED_TIME: u8 = 78;
/// The REAL type.
pub const REAL: u8 = 79;
/// A CHOICE type.
pub const CHOICE: u8 = 80;
/// The alternatives before the extension marker.
pub const OPTION_LIST: u8 = 81;
/// The alternatives behind the extension marker.
pub const OPTION_ADDITIONS: u8 = 82;
/// Alternatives in double brackets.
pub const OPTION_GROUP: u8 = 83;
/// An alternative: its name, its type and what belongs to them.
pub const CHOICE_OPTION: u8 = 84;
/// An INTEGER type.
pub const INTEGER: u8 = 85;
/// Named numbers or bits, in braces.
pub const DISTINGUISHED_VALUES: u8 = 86;
/// A named number or bit.
pub const DISTINGUISHED_VAL: u8 = 87;
/// An ENUMERATED type.
pub const ENUMERATED: u8 = 88;
/// The items of an enumeration on one side of the extension marker.
pub const ENUMERAL_LIST: u8 = 89;
/// An item of an enumeration.
pub const ENUMERAL: u8 = 90;
/// The number of an item.
pub const ITEM_NUMBER: u8 = 91;
/// A comment that belongs to an item or a definition.
pub const ITEM_COMMENT: u8 = 92;
/// The BOOLEAN type.
pub const BOOLEAN: u8 = 93;
/// A BIT STRING type.
pub const BIT_STRING: u8 = 94;
/// The TIME type.
pub const TIME: u8 = 95;
/// An OCTET STRING type.
pub const OCTET_STRING: u8 = 96;
/// A character string type.
pub const CHARACTER_STRING: u8 = 97;
/// A step to a field of a class.
pub const FIELD_STEP: u8 = 98;
/// The type of a field of a class.
pub const INFORMATION_OBJECT_FIELD_REFERENCE: u8 = 99;
/// A type by its name.
pub const ELSEWHERE_DECLARED_TYPE: u8 = 100;
/// A type.
pub const ASN1_TYPE: u8 = 101;
/// The constraints behind a type, at least one.
pub const CONSTRAINT: u8 = 102;
/// A constraint, or the arguments of a template.
pub const CONSTRAINT_ITEM: u8 = 103;
/// A constraint in parentheses.
pub const SINGLE_CONSTRAINT: u8 = 104;
/// What the content of a string is, and how it is encoded.
pub const CONTENT_BODY: u8 = 105;
/// A constraint on the content of a string.
pub const CONTENT_CONSTRAINT: u8 = 106;
/// A member that a table's column belongs to.
pub const RELATIONAL_CONSTRAINT: u8 = 107;
/// The dots that tell the level of a member.
pub const DOTS: u8 = 108;
/// Members in braces.
pub const RELATIONS: u8 = 109;
/// An object set as a table.
pub const TABLE_CONSTRAINT: u8 = 110;
/// A set of values, perhaps with an extension marker.
pub const ELEMENT_SET: u8 = 111;
/// An element, or a set operation.
pub const SET_REST: u8 = 112;
/// Two sets of values and the operator between them.
pub const SET_OPERATION: u8 = 113;
/// The operator between two sets of values.
pub const SET_OPERATOR: u8 = 114;
/// The sets of values behind an extension marker.
pub const ADDITIONS: u8 = 115;
/// An extension marker behind a set of values, and what is behind it.
pub const EXTENSION_TAIL: u8 = 116;
/// An element of a set of values.
pub const SUBTYPE_ELEMENT: u8 = 117;
/// A constraint on each element of a list.
pub const SINGLE_TYPE_CONSTRAINT: u8 = 118;
/// Constraints on members.
pub const MEMBER_LIST: u8 = 119;
/// Constraints on members, in braces.
pub const MULTIPLE_TYPE_CONSTRAINTS: u8 = 120;
/// A constraint on a member, and whether it is present.
pub const SUBSET_MEMBER: u8 = 121;
/// A constraint on a size.
pub const SIZE_CONSTRAINT: u8 = 122;
/// A pattern of a text.
pub const PATTERN_CONSTRAINT: u8 = 123;
/// What stands within braces.
pub const BRACE_TEXT: u8 = 124;
/// Any text within braces.
pub const BRACE_GROUP: u8 = 125;
/// A constraint that is told in words.
pub const USER_DEFINED_CONSTRAINT: u8 = 126;
/// A property and its setting.
pub const SETTING_PAIR: u8 = 127;
/// Settings of the properties of times.
pub const PROPERTY_SETTINGS_CONSTRAINT: u8 = 128;
/// A constraint on the characters of a text.
pub const PERMITTED_ALPHABET_CONSTRAINT: u8 = 129;
/// The lower end of a range.
pub const RANGE_LOW: u8 = 130;
/// The upper end of a range.
pub const RANGE_HIGH: u8 = 131;
/// The ends of a range.
pub const RANGE_BODY: u8 = 132;
/// A range of values.
pub const VALUE_RANGE: u8 = 133;
/// A single value.
pub const SINGLE_VALUE: u8 = 134;
/// The values of a type.
pub const CONTAINED_SUBTYPE: u8 = 135;
/// An argument of a template.
pub const PARAMETER: u8 = 136;
/// The arguments of a template.
pub const PARAMETERS: u8 = 137;
/// A parameter of a template.
pub const DUMMY: u8 = 138;
/// The parameters of a template.
pub const PARAMETERIZATION: u8 = 139;
/// The name of a field that holds a value or an object.
pub const SINGLE_VALUE_FIELD_ID: u8 = 140;
/// The name of a field that holds a type or a set.
pub const MULTIPLE_VALUE_FIELD_ID: u8 = 141;
/// The name of a field.
pub const OBJECT_FIELD_IDENTIFIER: u8 = 142;
/// The class TYPE-IDENTIFIER.
pub const TYPE_IDENTIFIER: u8 = 143;
/// A field of a class.
pub const CLASS_FIELD: u8 = 144;
/// The fields of a class.
pub const FIELD_LIST: u8 = 145;
/// A word of a class's own syntax.
pub const SYNTAX_LITERAL: u8 = 146;
/// An optional group of a class's own syntax.
pub const SYNTAX_GROUP: u8 = 147;
/// An item of a class's own syntax.
pub const SYNTAX_ITEM: u8 = 148;
/// A class's own syntax.
pub const SYNTAX_PART: u8 = 149;
/// A class.
pub const INFORMATION_OBJECT_CLASS: u8 = 150;
/// A field of an object and its setting.
pub const DEFAULT_FIELD: u8 = 151;
/// The settings of an object's fields.
pub const DEFAULT_SYNTAX: u8 = 152;
/// A word before a brace.
pub const LITERAL_WORD: u8 = 153;
/// An item of an object in its class's own syntax.
pub const CUSTOM_ITEM: u8 = 154;
/// The items of an object in its class's own syntax.
pub const CUSTOM_SYNTAX: u8 = 155;
/// An object.
pub const INFORMATION_OBJECT: u8 = 156;
/// An object, or the name of one.
pub const OBJECT_ITEM: u8 = 157;
/// Objects of a set.
pub const OBJECT_LIST: u8 = 158;
/// The extension marker of an object set.
pub const SET_MARK: u8 = 159;
/// The objects behind the extension marker.
pub const SET_MORE: u8 = 160;
/// An object set.
pub const OBJECT_SET: u8 = 161;
/// The labels of an internationalized resource identifier.
pub const IRI_LABELS: u8 = 162;
/// An internationalized resource identifier.
pub const IRI_VALUE: u8 = 163;
/// The identifiers of a module beside its name.
pub const DEFINITIVE: u8 = 164;
/// The encoding reference of a module.
pub const ENCODING_REFERENCE: u8 = 165;
/// The tagging environment.
pub const TAG_DEFAULT: u8 = 166;
/// The environments of a module.
pub const ENVIRONMENTS: u8 = 167;
/// A symbol that is imported or exported.
pub const IMPORTED_SYMBOL: u8 = 168;
/// Symbols, parted by commas.
pub const SYMBOL_LIST: u8 = 169;
/// The exports of a module.
pub const EXPORTS: u8 = 170;
/// What follows a module's name among imports.
pub const FOLLOW: u8 = 171;
/// What tells the imported module beside its name, or nothing.
pub const ASSIGNED_IDENTIFIER: u8 = 172;
/// The module that is imported from.
pub const GLOBAL_MODULE_REFERENCE: u8 = 173;
/// The symbols imported from one module.
pub const IMPORT: u8 = 174;
/// The imports of a module.
pub const IMPORTS: u8 = 175;
/// The head of a module.
pub const MODULE_REFERENCE: u8 = 176;
/// The text of an encoding control section.
pub const ENCODING_TEXT: u8 = 177;
/// An encoding control section.
pub const ENCODING_CONTROL: u8 = 178;
/// The end of a module.
pub const END: u8 = 179;
/// The comments before a definition.
pub const COMMENTS: u8 = 180;
/// The definition of an object.
pub const TOP_LEVEL_INFORMATION_OBJECT_DECLARATION: u8 = 181;
/// The definition of an object set.
pub const TOP_LEVEL_OBJECT_SET_DECLARATION: u8 = 182;
/// The definition of a class.
pub const TOP_LEVEL_OBJECT_CLASS_DECLARATION: u8 = 183;
/// The definition of an object, an object set or a class.
pub const TOP_LEVEL_INFORMATION_DECLARATION: u8 = 184;
/// The definition of a type.
pub const TOP_LEVEL_TYPE_DECLARATION: u8 = 185;
/// The definition of an item of an enumeration as a value.
pub const ENUMERATED_VALUE: u8 = 186;
/// The definition of a value.
pub const TOP_LEVEL_VALUE_DECLARATION: u8 = 187;
/// A definition.
pub const DEFINITION: u8 = 188;
/// A module.
pub const ASN_MODULE: u8 = 189;
/// A whole text: modules, and nothing behind them but blanks and comments.
pub const ASN_SPEC: u8 = 190;

// The leaves of words and symbols, whose numbers lie above those of the rules.

/// The value `TRUE`.
pub const MARK_TRUE: u8 = 191;
/// The value `FALSE`.
pub const MARK_FALSE: u8 = 192;
/// The class `PRIVATE` of a tag.
pub const MARK_PRIVATE: u8 = 193;
/// The class `APPLICATION` of a tag.
pub const MARK_APPLICATION: u8 = 194;
/// The class `UNIVERSAL` of a tag.
pub const MARK_UNIVERSAL: u8 = 195;
/// The environment `EXPLICIT`.
pub const MARK_EXPLICIT: u8 = 196;
/// The environment `IMPLICIT`.
pub const MARK_IMPLICIT: u8 = 197;
/// The environment `AUTOMATIC`.
pub const MARK_AUTOMATIC: u8 = 198;
/// The type `IA5String`.
pub const MARK_IA5_STRING: u8 = 199;
/// The type `UTF8String`.
pub const MARK_UTF8_STRING: u8 = 200;
/// The type `NumericString`.
pub const MARK_NUMERIC_STRING: u8 = 201;
/// The type `VisibleString`.
pub const MARK_VISIBLE_STRING: u8 = 202;
/// The type `TeletexString`.
pub const MARK_TELETEX_STRING: u8 = 203;
/// The type `VideotexString`.
pub const MARK_VIDEOTEX_STRING: u8 = 204;
/// The type `GraphicString`.
pub const MARK_GRAPHIC_STRING: u8 = 205;
/// The type `GeneralString`.
pub const MARK_GENERAL_STRING: u8 = 206;
/// The type `UniversalString`.
pub const MARK_UNIVERSAL_STRING: u8 = 207;
/// The type `BMPString`.
pub const MARK_BMP_STRING: u8 = 208;
/// The type `PrintableString`.
pub const MARK_PRINTABLE_STRING: u8 = 209;
/// `INTERSECTION` or `^` between two sets of values.
pub const MARK_INTERSECTION: u8 = 210;
/// `UNION` or `|` between two sets of values.
pub const MARK_UNION: u8 = 211;
/// `EXCEPT` between two sets of values.
pub const MARK_EXCEPT: u8 = 212;
/// The `...` before constraints on some of the members.
pub const MARK_PARTIAL: u8 = 213;
/// The member is `PRESENT`.
pub const MARK_PRESENT: u8 = 214;
/// The member is `ABSENT`.
pub const MARK_ABSENT: u8 = 215;
/// The member is `OPTIONAL`.
pub const MARK_OPTIONAL: u8 = 216;
/// The `<` or `>` behind the lower end of a range.
pub const MARK_LOW_OPEN: u8 = 217;
/// The `<` before the upper end of a range.
pub const MARK_HIGH_OPEN: u8 = 218;
/// The field is `UNIQUE`.
pub const MARK_UNIQUE: u8 = 219;
/// The `EXTENSIBILITY IMPLIED` of a module.
pub const MARK_EXTENSIBILITY: u8 = 220;
/// `ALL` of the symbols are exported.
pub const MARK_ALL: u8 = 221;
/// `WITH SUCCESSORS` behind an import.
pub const MARK_SUCCESSORS: u8 = 222;
/// `WITH DESCENDANTS` behind an import.
pub const MARK_DESCENDANTS: u8 = 223;
/// The `,` of a class's own syntax.
pub const MARK_COMMA: u8 = 224;
/// The property `Basic` of times.
pub const MARK_BASIC: u8 = 225;
/// The property `Date` of times.
pub const MARK_DATE: u8 = 226;
/// The property `Year` of times.
pub const MARK_YEAR: u8 = 227;
/// The property `Time` of times.
pub const MARK_TIME: u8 = 228;
/// The property `Local-or-UTC` of times.
pub const MARK_LOCAL_OR_UTC: u8 = 229;
/// The property `Interval-type` of times.
pub const MARK_INTERVAL_TYPE: u8 = 230;
/// The property `SE-point` of times.
pub const MARK_SE_POINT: u8 = 231;
/// The property `Recurrence` of times.
pub const MARK_RECURRENCE: u8 = 232;
/// The property `Midnight` of times.
pub const MARK_MIDNIGHT: u8 = 233;
