//! Texts with the words and places that they have, and words with what they spell.

use super::*;
use ostore_base::Text;
use std::fmt::Write;
use std::process::Abort;
use std::test::Fail;

/// The line has these words at these places, and ends there.
fn expect_line(rt: &impl Abort, lines: &[Line], nth: usize, words: &[(usize, &[u8])], end: usize) {
    assert!(rt; nth < lines.len());
    assert_eq!(rt; lines[nth].end, end);
    let found = lines[nth].words.items();
    assert_eq!(rt; found.len(), words.len());
    for (word, other) in found.iter().zip(words) {
        assert_eq!(rt; word.at, other.0);
        assert!(rt; word.bytes == other.1);
    }
}

#[test]
fn lines_and_comments(rt: HostRuntime) -> Result<(), Fail> {
    let text = b"type  Part \n   # another\n\n x int#\n#\ncommit";
    let lines = read_lines(rt.alloc(), text)?;
    let lines = lines.items();
    assert_eq!(rt; lines.len(), 3);
    expect_line(&rt, lines, 0, &[(0, b"type"), (6, b"Part")], 11);
    expect_line(&rt, lines, 1, &[(27, b"x"), (29, b"int#")], 33);
    expect_line(&rt, lines, 2, &[(36, b"commit")], 42);
    for empty in [b"".as_slice(), b"\n\n".as_slice(), b"  \n# x".as_slice()] {
        assert!(rt; read_lines(rt.alloc(), empty)?.items().is_empty());
    }
    Ok(())
}

#[test]
fn quoted_words(rt: HostRuntime) -> Result<(), Fail> {
    let text = br#"say "a b" "c \" d\\" e "open end"#;
    let lines = read_lines(rt.alloc(), text)?;
    let words: &[(usize, &[u8])] = &[
        (0, b"say"),
        (4, br#""a b""#),
        (10, br#""c \" d\\""#),
        (21, b"e"),
        (23, br#""open end"#),
    ];
    expect_line(&rt, lines.items(), 0, words, 32);
    let text = b"\"a b\"c d\nx\"a b\"\n\"a \\";
    let lines = read_lines(rt.alloc(), text)?;
    let lines = lines.items();
    assert_eq!(rt; lines.len(), 3);
    expect_line(&rt, lines, 0, &[(0, b"\"a b\"c"), (7, b"d")], 8);
    expect_line(&rt, lines, 1, &[(9, b"x\"a"), (13, b"b\"")], 15);
    expect_line(&rt, lines, 2, &[(16, b"\"a \\")], 20);
    Ok(())
}

#[test]
fn control_bytes(rt: HostRuntime) -> Result<(), Fail> {
    let text = b"ab\tc d\n# fine\n# a\x01b c\nx\r\n\"a \x1f b\"";
    let lines = read_lines(rt.alloc(), text)?;
    let lines = lines.items();
    assert_eq!(rt; lines.len(), 4);
    expect_line(&rt, lines, 0, &[(2, b"ab\tc"), (5, b"d")], 6);
    expect_line(&rt, lines, 1, &[(17, b"# a\x01b c")], 21);
    expect_line(&rt, lines, 2, &[(23, b"x\r")], 24);
    expect_line(&rt, lines, 3, &[(28, b"\"a \x1f b\"")], 32);
    Ok(())
}

#[test]
fn many_lines_and_many_words(rt: HostRuntime) -> Result<(), Fail> {
    let mut text = String::new(rt.alloc());
    for i in 0..2000u32 {
        writeln!(text, "line {i} of many")?;
    }
    for _ in 0..1000u32 {
        write!(text, "w ")?;
    }
    let lines = read_lines(rt.alloc(), text.as_bytes())?;
    let lines = lines.items();
    assert_eq!(rt; lines.len(), 2001);
    let last: &[(usize, &[u8])] = &[
        (34872, b"line"),
        (34877, b"1999"),
        (34882, b"of"),
        (34885, b"many"),
    ];
    expect_line(&rt, lines, 1999, last, 34889);
    let words = lines[2000].words.items();
    assert_eq!(rt; words.len(), 1000);
    assert_eq!(rt; words[999].at, 34890 + 2 * 999);
    Ok(())
}

#[test]
fn a_reader_from_a_place_on(rt: HostRuntime) -> Result<(), Fail> {
    let text = b"type A\njob\n\n# none\nclient a\n  begin\n";
    let mut lines = LineReader::new(rt.alloc(), text, 11)?;
    let client = lines.line()?;
    assert_eq!(rt; (client.word(0)?.at, client.end), (19, 27));
    lines.advance()?;
    let begin = lines.line()?;
    assert_eq!(rt; (begin.word(0)?.at, begin.end), (30, 35));
    lines.advance()?;
    assert!(rt; !lines.has_line() && lines.next_line().is_none());
    assert!(rt; matches!(lines.line(), Err(TextFault::Syntax { at: 36 })));
    Ok(())
}

#[test]
fn three_million_bytes_line_by_line(rt: HostRuntime) -> Result<(), Fail> {
    let mut text = Vec::new(rt.alloc());
    for _ in 0..300_000u32 {
        text.extend_from_slice(b"get $p.id\n")?;
    }
    let mut lines = LineReader::new(rt.alloc(), &text, 0)?;
    for _ in 0..299_999u32 {
        lines.line()?.ended(2)?;
        lines.advance()?;
    }
    assert_eq!(rt; lines.line()?.word(1)?.at, 2_999_994);
    lines.advance()?;
    assert!(rt; !lines.has_line());
    Ok(())
}

#[test]
fn what_words_say(rt: HostRuntime) -> Result<(), Fail> {
    let text = br#" part 40 -7 "a \"b\\" 255.4294967295  # "#;
    let lines = LineReader::new(rt.alloc(), text, 0)?;
    let line = lines.line()?;
    assert_eq!(rt; line.identifier(0)?.at, 1);
    assert_eq!(rt; line.keyword(b"part", 0)?.at, 1);
    assert_eq!(rt; line.count(1, 1, 40)?, 40);
    assert_eq!(rt; line.int(2)?, -7);
    assert!(rt; line.quoted(rt.alloc(), 3)?.bytes() == br#"a "b\"#.as_slice());
    assert_eq!(rt; line.name(4)?, (255, 4_294_967_295));
    assert_eq!(rt; line.any(rt.alloc(), 5)?.at, 38);
    line.ended(6)?;
    Ok(())
}

#[test]
fn where_words_can_not_stand(rt: HostRuntime) -> Result<(), Fail> {
    let text = b"part 40 \"a\" 1.2  \n";
    let lines = LineReader::new(rt.alloc(), text, 0)?;
    let line = lines.line()?;
    for (fault, at) in [
        (line.word(4).err(), 17),
        (line.identifier(1).err(), 5),
        (line.keyword(b"job", 0).err(), 0),
        (line.count(1, 1, 39).err(), 5),
        (line.int(0).err(), 0),
        (line.quoted(rt.alloc(), 3).err(), 12),
        (line.name(2).err(), 8),
        (line.any(rt.alloc(), 4).err(), 17),
        (line.ended(3).err(), 12),
    ] {
        assert_eq!(rt; fault, Some(TextFault::Syntax { at }));
    }
    Ok(())
}

#[test]
fn quoted_texts(rt: HostRuntime) -> Result<(), Fail> {
    for (word, text) in [
        (br#""""#.as_slice(), b"".as_slice()),
        (br#""a b""#.as_slice(), b"a b".as_slice()),
        (br#""\"\\""#.as_slice(), br#""\"#.as_slice()),
    ] {
        let lines = LineReader::new(rt.alloc(), word, 0)?;
        assert!(rt; lines.line()?.quoted(rt.alloc(), 0)?.bytes() == text);
        let mut printed = Text::new(rt.alloc());
        push_quoted(&mut printed, text)?;
        assert!(rt; printed.bytes() == word);
    }
    for (word, at) in [
        (br#"""#.as_slice(), 0),
        (br#""a"#.as_slice(), 0),
        (br#""a\""#.as_slice(), 0),
        (br#""a\n""#.as_slice(), 0),
        (br#""a"b"#.as_slice(), 0),
        (br#"a"b""#.as_slice(), 0),
        (b"\"a\x1f\"".as_slice(), 2),
    ] {
        let lines = LineReader::new(rt.alloc(), word, 0)?;
        let fault = lines.line()?.quoted(rt.alloc(), 0).err();
        assert_eq!(rt; fault, Some(TextFault::Syntax { at }));
    }
    Ok(())
}

#[test]
fn names_of_objects(rt: HostRuntime) {
    assert_eq!(rt; read_name(b"1.1"), Some((1, 1)));
    for word in [
        b"0.1".as_slice(),
        b"256.1".as_slice(),
        b"1.0".as_slice(),
        b"1.4294967296".as_slice(),
        b"01.1".as_slice(),
        b"1".as_slice(),
        b"1.1.1".as_slice(),
    ] {
        assert_eq!(rt; read_name(word), None);
    }
}

#[test]
fn a_text_of_four_million_bytes(rt: HostRuntime) -> Result<(), Fail> {
    let mut text = vec![in rt.alloc(); b' '; 4_194_300]?;
    text.extend_from_slice(b"\njob")?;
    assert_eq!(rt; find_parting(&text, b"job"), Some((4_194_301, 4_194_305)));
    let lines = read_lines(rt.alloc(), &text)?;
    assert_eq!(rt; lines.items().len(), 1);
    expect_line(&rt, lines.items(), 0, &[(4_194_301, b"job")], 4_194_304);
    assert_eq!(rt; utf8_fault(&text), None);
    Ok(())
}

#[test]
fn partings(rt: HostRuntime) {
    for (text, parting) in [
        (b"type A\n  job \nclient a\n".as_slice(), Some((7, 14))),
        (
            b"jobs\njob x\nx job\n\"job\"\njob".as_slice(),
            Some((23, 27)),
        ),
        (b"job\njob\n".as_slice(), Some((0, 4))),
        (b"a job\n# job\n".as_slice(), None),
        (b"".as_slice(), None),
    ] {
        assert_eq!(rt; find_parting(text, b"job"), parting);
    }
}

#[test]
fn identifiers(rt: HostRuntime) {
    for (word, is_one) in [
        (b"abcdefghijklmnopqrstuvwxyz12345".as_slice(), true),
        (b"a_1".as_slice(), true),
        (b"jobs".as_slice(), true),
        (b"abcdefghijklmnopqrstuvwxyz123456".as_slice(), false),
        (b"job".as_slice(), false),
        (b"_a".as_slice(), false),
        (b"".as_slice(), false),
    ] {
        assert_eq!(rt; is_identifier(word), is_one);
    }
}

#[test]
fn dotted_words(rt: HostRuntime) {
    assert!(rt; read_dotted(b"Part.x") == Some((b"Part".as_slice(), b"x".as_slice())));
    for word in [
        b"Part".as_slice(),
        b"Part.x.y".as_slice(),
        b"Part.".as_slice(),
        b".x".as_slice(),
        b"Part.type".as_slice(),
    ] {
        assert!(rt; read_dotted(word).is_none());
    }
}

#[test]
fn ints_have_one_form(rt: HostRuntime) {
    for (word, number) in [
        (b"0".as_slice(), Some(0)),
        (b"-7".as_slice(), Some(-7)),
        (b"9223372036854775807".as_slice(), Some(i64::MAX)),
        (b"-9223372036854775808".as_slice(), Some(i64::MIN)),
        (b"9223372036854775808".as_slice(), None),
        (b"-9223372036854775809".as_slice(), None),
        (b"-0".as_slice(), None),
        (b"01".as_slice(), None),
        (b"+1".as_slice(), None),
        (b"-".as_slice(), None),
        (b"".as_slice(), None),
        (b"\xff".as_slice(), None),
    ] {
        assert_eq!(rt; read_int(word), number);
    }
}

#[test]
fn counts_have_one_form_and_bounds(rt: HostRuntime) {
    for (word, least, most, count) in [
        (b"0".as_slice(), 0, 255, Some(0)),
        (b"0".as_slice(), 1, 255, None),
        (b"01".as_slice(), 0, 255, None),
        (b"255".as_slice(), 1, 255, Some(255)),
        (b"256".as_slice(), 1, 255, None),
        (b"7".as_slice(), 9, 5, None),
        (
            b"18446744073709551615".as_slice(),
            0,
            u64::MAX,
            Some(u64::MAX),
        ),
        (b"18446744073709551616".as_slice(), 0, u64::MAX, None),
        (b"+1".as_slice(), 0, 255, None),
        (b"".as_slice(), 0, 255, None),
    ] {
        assert_eq!(rt; read_count(word, least, most), count);
    }
}

#[test]
fn utf8_faults(rt: HostRuntime) {
    for (text, fault) in [
        (b"".as_slice(), None),
        (b"Part \xc3\xa9\n".as_slice(), None),
        (b"a\xffb".as_slice(), Some(1)),
        (b"ab\xc3".as_slice(), Some(2)),
        (b"\xc3\xa9\xed\xa0\x80".as_slice(), Some(2)),
    ] {
        assert_eq!(rt; utf8_fault(text), fault);
    }
}
