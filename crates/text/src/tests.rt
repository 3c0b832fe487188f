use crate::cuts::cut;
use crate::lines::{Lines, next_line};
use crate::numbers::number;
use std::test::Fail;

#[test]
fn numbers_at_the_edges(rt: HostRuntime) {
    assert_eq!(rt; number(b"0"), Some(0));
    assert_eq!(rt; number(b"4294967295"), Some(4_294_967_295));
    assert_eq!(rt; number(b"4294967296"), None, "one above 32 bits");
    assert_eq!(rt; number(b"0000000007"), Some(7), "ten digits");
    assert_eq!(rt; number(b"00000000007"), None, "eleven digits");
}

#[test]
fn no_numbers(rt: HostRuntime) {
    assert_eq!(rt; number(b""), None);
    assert_eq!(rt; number(b"+1"), None);
    assert_eq!(rt; number(b"1 "), None);
    assert_eq!(rt; number(b"/"), None, "the byte before 0");
    assert_eq!(rt; number(b":"), None, "the byte after 9");
    assert_eq!(rt; number(b"1\xff"), None);
}

#[test]
fn cuts_at_the_first(rt: HostRuntime) -> Result<(), Fail> {
    let (front, back) = cut(b"a\tb\tc", b'\t');
    assert_eq!(rt; front, b"a".as_slice());
    assert_eq!(rt; back.ok_or("no tab")?, b"b\tc".as_slice());
    let (whole, none) = cut(b"ab", b'\t');
    assert_eq!(rt; whole, b"ab".as_slice());
    assert!(rt; none.is_none());
    Ok(())
}

#[test]
fn lines_in_turn(rt: HostRuntime) -> Result<(), Fail> {
    let (first, rest) = next_line(b"a\n\nb").ok_or("no line")?;
    assert_eq!(rt; first, b"a".as_slice());
    let (second, rest) = next_line(rest).ok_or("one line")?;
    assert_eq!(rt; second, b"".as_slice());
    let (third, rest) = next_line(rest).ok_or("two lines")?;
    assert_eq!(rt; third, b"b".as_slice());
    assert!(rt; next_line(rest).is_none());
    Ok(())
}

#[test]
fn lines_to_the_end(rt: HostRuntime) {
    assert!(rt; Lines::new(b"a\n\nb\n").eq([b"a".as_slice(), b"", b"b"]));
    assert_eq!(rt; Lines::new(b"a\n\nb").count(), 3, "no line feed at the end");
    assert_eq!(rt; Lines::new(b"").count(), 0);
}
