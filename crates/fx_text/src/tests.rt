use super::*;
use fx_base::Bytes;
use std::test::Fail;

#[test]
fn a_text_has_lines(rt: HostRuntime) {
    let text = b"ab\n\na\tb\x7f\nc";
    let lines = [
        (0, 2, true, None),
        (3, 3, true, None),
        (4, 8, true, Some(1)),
        (9, 10, false, None),
    ];
    let mut from = 0;
    for (start, to, ended, bad) in lines {
        assert!(rt; from <= text.len());
        let line = next_line(text, from);
        assert_eq!(rt;
            line,
            Some(LineSpan {
                from: start,
                to,
                ended,
                bad
            })
        );
        from = if ended { to + 1 } else { to };
    }
    assert!(rt; from <= text.len());
    assert_eq!(rt; next_line(text, from), None);
}

#[test]
fn a_line_has_words(rt: HostRuntime) {
    let line = b" ab c ";
    assert_eq!(rt; next_word(line, 0), Some(Span { from: 1, to: 3 }));
    assert_eq!(rt; next_word(line, 3), Some(Span { from: 4, to: 5 }));
    assert_eq!(rt; next_word(line, 5), None);
}

#[test]
fn numbers_have_one_form(rt: HostRuntime) -> Result<(), Fail> {
    let forms = [
        ("0", Ok(0)),
        ("9223372036854775807", Ok(i64::MAX)),
        ("-9223372036854775808", Ok(i64::MIN)),
        ("9223372036854775808", Err(NumberFault::TooWide)),
        ("-9223372036854775809", Err(NumberFault::TooWide)),
        ("99999999999999999999999", Err(NumberFault::TooWide)),
        ("01", Err(NumberFault::NotANumber)),
        ("-0", Err(NumberFault::NotANumber)),
        ("-", Err(NumberFault::NotANumber)),
        ("", Err(NumberFault::NotANumber)),
        ("+1", Err(NumberFault::NotANumber)),
        ("1a", Err(NumberFault::NotANumber)),
    ];
    for (word, number) in forms {
        assert_eq!(rt; read_number(word.as_bytes()), number, "at {word}");
    }
    let mut out = Bytes::new(rt.alloc());
    out.push(b':')?;
    push_number(&mut out, i64::MIN)?;
    assert_eq!(rt; out.as_slice(), b":-9223372036854775808".as_slice());
    Ok(())
}

#[test]
fn lines_are_checked(rt: HostRuntime) {
    assert_eq!(rt; check_line(b"fenix 1", None), Ok(()));
    assert_eq!(rt; check_line(b"a\tb\n", Some(1)), Err(LineFault::NotAscii(2)));
    assert_eq!(rt; check_line(&[b'a'; 1024], None), Ok(()));
    assert_eq!(rt; check_line(&[b'a'; 1025], None), Err(LineFault::TooLong));
}

#[test]
fn a_line_is_written(rt: HostRuntime) -> Result<(), Fail> {
    let mut out = Bytes::new(rt.alloc());
    out.append(b"set")?;
    put_word(&mut out, b"c")?;
    for number in [0, 9, 10, -1, -10, 255, i64::MAX, i64::MIN] {
        put_number(&mut out, number)?;
    }
    put_numbers(&mut out, &[7, -7])?;
    end_line(&mut out)?;
    assert_eq!(rt;
        out.as_slice(),
        b"set c 0 9 10 -1 -10 255 9223372036854775807 -9223372036854775808 7 -7\n".as_slice()
    );
    Ok(())
}
