//! Texts with their tokens, and the first lexical fault of texts that have one.

use pg_read_lex::{LexFault, TokenKind, lex, position, token_bytes};
use std::alloc::Global;
use std::process::Abort;
use std::test::Fail;

#[derive(Drop)]
struct Row {
    text: &'static [u8],
    tokens: &'static [(TokenKind, u32, u32)],
}

const ROWS: [Row; 10] = [
    Row {
        text: b"a-b: a+b: \"x y\":",
        tokens: &[
            (TokenKind::Label, 0, 4),
            (TokenKind::Word, 5, 8),
            (TokenKind::Colon, 8, 9),
            (TokenKind::Label, 10, 16),
        ],
    },
    Row {
        text: b"-12 007 5: ... .. $x",
        tokens: &[
            (TokenKind::Int, 0, 3),
            (TokenKind::Int, 4, 7),
            (TokenKind::Label, 8, 10),
            (TokenKind::Dots, 11, 14),
            (TokenKind::Odd, 15, 17),
            (TokenKind::Odd, 18, 20),
        ],
    },
    Row {
        text: b"c\"x\": c c\"\"",
        tokens: &[
            (TokenKind::CStr, 0, 4),
            (TokenKind::Colon, 4, 5),
            (TokenKind::Word, 6, 7),
            (TokenKind::CStr, 8, 11),
        ],
    },
    Row {
        text: b"%a=@\"b c\" \"d\"",
        tokens: &[
            (TokenKind::Local, 0, 2),
            (TokenKind::Equals, 2, 3),
            (TokenKind::Global, 3, 9),
            (TokenKind::Str, 10, 13),
        ],
    },
    Row {
        text: b"!a+b ! #0",
        tokens: &[
            (TokenKind::Meta, 0, 4),
            (TokenKind::Meta, 5, 6),
            (TokenKind::Attr, 7, 9),
        ],
    },
    Row {
        text: b"; all of \"it\n,;x",
        tokens: &[(TokenKind::Comma, 13, 14)],
    },
    Row {
        text: b"(){}[]",
        tokens: &[
            (TokenKind::OpenRound, 0, 1),
            (TokenKind::CloseRound, 1, 2),
            (TokenKind::OpenBrace, 2, 3),
            (TokenKind::CloseBrace, 3, 4),
            (TokenKind::OpenSquare, 4, 5),
            (TokenKind::CloseSquare, 5, 6),
        ],
    },
    Row {
        text: b"<>,=*|",
        tokens: &[
            (TokenKind::Less, 0, 1),
            (TokenKind::Greater, 1, 2),
            (TokenKind::Comma, 2, 3),
            (TokenKind::Equals, 3, 4),
            (TokenKind::Star, 4, 5),
            (TokenKind::Bar, 5, 6),
        ],
    },
    Row {
        text: b" \t\r\n",
        tokens: &[],
    },
    Row {
        text: b"",
        tokens: &[],
    },
];

const FAULTS: [(&[u8], LexFault); 7] = [
    (b"a %a+b", LexFault::BadByte(2)),
    (b"# ", LexFault::BadByte(0)),
    (b"x ^ \"", LexFault::BadByte(2)),
    (b"ab\"", LexFault::OpenString(2)),
    (b"%\"ab", LexFault::OpenString(1)),
    (b"c\"ab", LexFault::OpenString(1)),
    (b"\"a\" + @", LexFault::BadByte(6)),
];

fn expect_tokens(rt: &impl Abort, alloc: Global, row: &Row) -> Result<(), Fail> {
    assert!(rt; row.text.len() < 100);
    let found = lex(alloc, row.text)?;
    assert_eq!(rt; found.len(), row.tokens.len());
    for (token, expected) in found.iter().zip(row.tokens) {
        assert_eq!(rt; token.kind, expected.0);
        assert_eq!(rt; token.span.start, expected.1);
        assert_eq!(rt; token.span.end, expected.2);
    }
    Ok(())
}

#[test]
fn reads_each_form(rt: HostRuntime) -> Result<(), Fail> {
    for row in &ROWS {
        expect_tokens(&rt, rt.alloc(), row)?;
    }
    Ok(())
}

#[test]
fn refuses_the_first_fault(rt: HostRuntime) -> Result<(), Fail> {
    for (text, fault) in &FAULTS {
        assert!(rt; text.len() < 100);
        match lex(rt.alloc(), text) {
            Ok(_) => assert!(rt; false),
            Err(found) => assert_eq!(rt; found, *fault),
        }
    }
    Ok(())
}

#[test]
fn tells_lines_and_columns(rt: HostRuntime) {
    assert_eq!(rt; position(b"ab\n\ncd", 0), (1, 1));
    assert_eq!(rt; position(b"ab\n\ncd", 2), (1, 3));
    assert_eq!(rt; position(b"ab\n\ncd", 3), (2, 1));
    assert_eq!(rt; position(b"ab\n\ncd", 6), (3, 3));
}

#[test]
fn reads_names(rt: HostRuntime) -> Result<(), Fail> {
    let name = token_bytes(rt.alloc(), TokenKind::Local, b"%\"a\\5Cb\\\\c\\5\"")?;
    assert_eq!(rt; name.as_slice(), b"a\\b\\c\\5".as_slice());
    let label = token_bytes(rt.alloc(), TokenKind::Label, b"entry:")?;
    assert_eq!(rt; label.as_slice(), b"entry".as_slice());
    Ok(())
}
