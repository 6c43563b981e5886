//! Spellings at both sides of each limit, and texts cut by hand.

use crate::{
    Out, cut, is_name, lines_law, read_u64, read_up_to, spelling_law, without_feed, words,
    words_law,
};
use std::test::Fail;

#[test]
fn reads_one_spelling(rt: HostRuntime) {
    for (text, number) in [("0", 0), ("10", 10), ("18446744073709551615", u64::MAX)] {
        assert_eq!(rt; read_u64(text.as_bytes()), Some(number), "{text}");
    }
    for text in [
        "",
        "00",
        "01",
        "+1",
        "-1",
        " 1",
        "1 ",
        "1a",
        "18446744073709551616",
    ] {
        assert_eq!(rt; read_u64(text.as_bytes()), None, "{text}");
    }
}

#[test]
fn reads_up_to_a_limit(rt: HostRuntime) {
    assert_eq!(rt; read_up_to(b"100", 100), Some(100));
    assert_eq!(rt; read_up_to(b"101", 100), None);
    assert_eq!(rt; read_up_to(b"01", 100), None);
}

#[test]
fn takes_numbers_one_by_one(rt: HostRuntime) {
    let mut parts = words(b"7 100 101 01  1a 18446744073709551615");
    for number in [Some(7), Some(100), None, None, None, None, None] {
        assert_eq!(rt; parts.next_number(100), Some(number));
    }
    assert_eq!(rt; parts.next_number(100), None);
    let mut widest = words(b"18446744073709551615");
    assert_eq!(rt; widest.next_number(u64::MAX), Some(Some(u64::MAX)));
}

#[test]
fn names_have_one_to_32_bytes(rt: HostRuntime) {
    for text in ["a", "z_09", "abcdefghijklmnopqrstuvwxyz_01234"] {
        assert!(rt; is_name(text.as_bytes()), "{text}");
    }
    for text in ["", "A", "a-b", "a b", "abcdefghijklmnopqrstuvwxyz_012345"] {
        assert!(rt; !is_name(text.as_bytes()), "{text}");
    }
}

#[test]
fn cuts_lines(rt: HostRuntime) {
    let text = b"go\n\nx";
    assert_eq!(rt; cut(text, 0), Some((b"go\n".as_slice(), 3)));
    assert_eq!(rt; cut(text, 3), Some((b"\n".as_slice(), 4)));
    assert_eq!(rt; cut(text, 4), Some((b"x".as_slice(), 5)));
    assert_eq!(rt; cut(text, 5), None);
}

#[test]
fn takes_a_feed_off(rt: HostRuntime) {
    for (line, text) in [("go\n", "go"), ("\n", ""), ("go\r\n", "go\r")] {
        assert_eq!(rt;
            without_feed(line.as_bytes()),
            Some(text.as_bytes()),
            "{line:?}"
        );
    }
    for line in ["", "go", "\ngo"] {
        assert_eq!(rt; without_feed(line.as_bytes()), None, "{line:?}");
    }
}

#[test]
fn splits_words(rt: HostRuntime) {
    let mut parts = words(b"go  5");
    let mut again = parts.again();
    assert_eq!(rt; parts.next(), Some(b"go".as_slice()));
    assert_eq!(rt; parts.next(), Some(b"".as_slice()));
    assert_eq!(rt; parts.next(), Some(b"5".as_slice()));
    assert_eq!(rt; parts.next(), None);
    assert_eq!(rt; again.next(), Some(b"go".as_slice()));
    assert_eq!(rt; words(b"").count(), 1);
}

#[test]
fn takes_the_only_word(rt: HostRuntime) {
    for (line, name) in [("go", true), ("Go", false), ("", false)] {
        let word = line.as_bytes();
        assert_eq!(rt; words(word).only(), Some(word), "{line}");
        assert_eq!(rt; words(word).only_name(), name.then_some(word), "{line}");
    }
    for line in ["go 5", "go ", " go"] {
        assert_eq!(rt; words(line.as_bytes()).only(), None, "{line}");
        assert_eq!(rt; words(line.as_bytes()).only_name(), None, "{line}");
    }
}

#[test]
fn tests_the_words_left(rt: HostRuntime) {
    for (line, names) in [("n1 n2", true), ("n1 N2", false), ("n1  n2", false)] {
        assert_eq!(rt; words(line.as_bytes()).are_names(), names, "{line}");
    }
    let mut parts = words(b"Go ");
    assert!(rt; !parts.is_empty());
    assert_eq!(rt; parts.next(), Some(b"Go".as_slice()));
    assert!(rt; !parts.is_empty());
    assert_eq!(rt; parts.next(), Some(b"".as_slice()));
    assert!(rt; parts.is_empty());
    assert!(rt; parts.are_names());
}

#[test]
fn builds_a_text(rt: HostRuntime) -> Result<(), Fail> {
    let mut out = Out::make(rt.alloc());
    out.put(b"task ")?;
    out.number(0)?;
    out.put(b" ")?;
    out.number(u64::MAX)?;
    out.line_end()?;
    for number in [0, -7, i128::MIN, i128::MAX] {
        out.signed(number)?;
        out.line_end()?;
    }
    let wanted =
        b"task 0 18446744073709551615\n0\n-7\n-170141183460469231731687303715884105728\n170141183460469231731687303715884105727\n";
    assert_eq!(rt; out.bytes(), wanted.as_slice());
    spelling_law();
    words_law();
    lines_law();
    Ok(())
}
