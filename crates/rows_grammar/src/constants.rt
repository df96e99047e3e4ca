//! The constants. A row is `keywords` or `words` with the number of a group, whose words are told, those of keywords with whether they are
//! the listed ones; or `signs` with signs, and it is told whether these are the constants.

use asn_memory::{Mem, Text};
use asn_text::ASN1_KEYWORDS;
use asn_text::constants::*;
use rows::push_flag;
use std::alloc::Global;

/// The words, with commas between them.
fn told_words(alloc: Global, words: &[&str]) -> Mem<Text> {
    let mut out = Text::new(alloc, "")?;
    for (number, word) in words.iter().enumerate() {
        out.push_str(if number == 0 { "" } else { ", " })?;
        out.push_str(*word)?;
    }
    Ok(out)
}

/// The words, and whether they stand in the list of keywords from this place on.
fn told_keywords(alloc: Global, words: &[&str], place: usize) -> Mem<Text> {
    let mut out = told_words(alloc, words)?;
    let listed = ASN1_KEYWORDS.iter().skip(place);
    let same = words
        .iter()
        .zip(listed)
        .all(|(word, listed)| *word == *listed);
    push_flag(&mut out, "; listed", same)?;
    Ok(out)
}

fn keywords_1(alloc: Global) -> Mem<Text> {
    let words = [
        ABSTRACT_SYNTAX,
        BIT,
        CHARACTER,
        CONTAINING,
        DATE,
        DATE_TIME,
        DURATION,
        EMBEDDED_PDV,
        EXTERNAL,
        INSTANCE_OF,
        MINUS_INFINITY,
        NOT_A_NUMBER,
        OBJECT,
        OCTET,
        OID_IRI,
        PLUS_INFINITY,
    ];
    told_keywords(alloc, &words, 0)
}

fn keywords_2(alloc: Global) -> Mem<Text> {
    let words = [
        RELATIVE_OID,
        RELATIVE_OID_IRI,
        TIME,
        TIME_OF_DAY,
        TYPE_IDENTIFIER,
        SIZE,
        DEFAULT,
        OPTIONAL,
        WITH_COMPONENTS,
        WITH_COMPONENT,
        UNION,
        EXCEPT,
        INTERSECTION,
        ABSENT,
        PRESENT,
        INCLUDES,
    ];
    told_keywords(alloc, &words, 16)
}

fn keywords_3(alloc: Global) -> Mem<Text> {
    let words = [
        MIN,
        MAX,
        CLASS,
        UNIQUE,
        WITH_SYNTAX,
        NULL,
        BOOLEAN,
        INTEGER,
        REAL,
        ENUMERATED,
        CHOICE,
        SEQUENCE,
        OF,
        ALL,
        SET,
        OBJECT_IDENTIFIER,
    ];
    told_keywords(alloc, &words, 32)
}

fn keywords_4(alloc: Global) -> Mem<Text> {
    let words = [
        UNIVERSAL,
        PRIVATE,
        APPLICATION,
        TRUE,
        FALSE,
        BEGIN,
        END,
        DEFINITIONS,
        AUTOMATIC,
        EXPLICIT,
        IMPLICIT,
        IMPORTS,
        FROM,
        INSTRUCTIONS,
        TAGS,
    ];
    told_keywords(alloc, &words, 48)
}

fn words_1(alloc: Global) -> Mem<Text> {
    let words = [
        BIT_STRING,
        OCTET_STRING,
        SEQUENCE_OF,
        SET_OF,
        COMPONENTS_OF,
        EXPORTS,
        EXTENSIBILITY_IMPLIED,
        WITH_SUCCESSORS,
        WITH_DESCENDANTS,
        CONSTRAINED_BY,
        PATTERN,
        ENCODED_BY,
        ENCODING_CONTROL,
        IA5_STRING,
        UTF8_STRING,
        NUMERIC_STRING,
        VISIBLE_STRING,
    ];
    told_words(alloc, &words)
}

fn words_2(alloc: Global) -> Mem<Text> {
    let words = [
        TELETEX_STRING,
        VIDEOTEX_STRING,
        GRAPHIC_STRING,
        GENERAL_STRING,
        UNIVERSAL_STRING,
        BMP_STRING,
        PRINTABLE_STRING,
        GENERALIZED_TIME,
        UTC_TIME,
        BLOCK_COMMENT_START,
        BLOCK_COMMENT_END,
        LINE_COMMENT,
        PIPE,
        CARET,
        ASSIGN,
        RANGE,
        ELLIPSIS,
    ];
    told_words(alloc, &words)
}

/// Whether these are the signs, in order.
fn told_signs(alloc: Global, text: &str) -> Mem<Text> {
    let signs = [
        LEFT_PARENTHESIS,
        RIGHT_PARENTHESIS,
        LEFT_BRACKET,
        RIGHT_BRACKET,
        LEFT_BRACE,
        RIGHT_BRACE,
        LEFT_CHEVRON,
        LESS_THAN,
        RIGHT_CHEVRON,
        GREATER_THAN,
        SEMICOLON,
        AMPERSAND,
        AT,
        DOT,
        COMMA,
        COLON,
        SINGLE_QUOTE,
    ];
    let mut out = Text::new(alloc, "signs")?;
    let same = signs
        .iter()
        .zip(text.chars())
        .all(|(sign, given)| *sign == given);
    push_flag(&mut out, "", same && text.len() == signs.len())?;
    Ok(out)
}

/// The line of a row of these fields; None where it is none of these.
pub(crate) fn line_of(alloc: Global, fields: &[Text]) -> Option<Mem<Text>> {
    match fields {
        [kind, group] => match (kind.as_str(), group.as_str()) {
            ("keywords", "1") => Some(keywords_1(alloc)),
            ("keywords", "2") => Some(keywords_2(alloc)),
            ("keywords", "3") => Some(keywords_3(alloc)),
            ("keywords", "4") => Some(keywords_4(alloc)),
            ("words", "1") => Some(words_1(alloc)),
            ("words", "2") => Some(words_2(alloc)),
            ("signs", signs) => Some(told_signs(alloc, signs)),
            _ => None,
        },
        _ => None,
    }
}
