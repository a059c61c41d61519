use addition::answer_text;
use kinds::ranked::Ranked;
use kinds::size::Size;
use lines::line::Line;
use price::written::Written;
use std::test::Fail;

// The line that answers a text, served or refused.
fn printed<W: Written>(text: &[u8]) -> Line {
    answer_text::<W>(text).unwrap_or_else(|refusal| refusal.line())
}

// Whether each text is answered by the line beside it.
fn are_answered<W: Written>(cases: &[(&[u8], &[u8])]) -> bool {
    cases
        .iter()
        .all(|(text, line)| printed::<W>(text).as_bytes() == *line)
}

#[test]
fn texts_of_sizes(rt: HostRuntime) {
    let cases: [(&[u8], &[u8]); 15] = [
        (b"", b"s 0\n"),
        (b"2\n5\n", b"s 7\n"),
        (b"2\n5", b"s 7\n"),
        (b"007\n", b"s 7\n"),
        (b"4294967295\n4294967295\n", b"s 8589934590\n"),
        (b"000000000000001\n", b"s 1\n"),
        (b"4294967296\n", b"c refused 16 1\n"),
        (b"0000000000000001\n", b"c refused 16 1\n"),
        (b"999999999999999\n", b"c refused 16 1\n"),
        (b"1\n\n2\n", b"c refused 16 2\n"),
        (b"1\n-2\n", b"c refused 16 2\n"),
        (b"1\n2 \nx\n", b"c refused 16 2\n"),
        (b"1\r\n", b"c refused 16 1\n"),
        (b"\n", b"c refused 16 1\n"),
        (b"+1\n", b"c refused 16 1\n"),
    ];
    assert!(rt; are_answered::<Size>(&cases));
}

#[test]
fn texts_of_ranked_prices(rt: HostRuntime) {
    let cases: [(&[u8], &[u8]); 4] = [
        // ranks 1 and 2, sizes 5 and 6
        (b"17592186044421\n35184372088838\n", b"s 52776558133259\n"),
        (b"263887085633535\n", b"s 263887085633535\n"),
        // rank 15, size one too large
        (b"263887085633536\n", b"c refused 16 1\n"),
        // rank 0, size one too large
        (b"4294967296\n", b"c refused 16 1\n"),
    ];
    assert!(rt; are_answered::<Ranked>(&cases));
}

#[test]
fn as_many_lines_as_feeds(rt: HostRuntime) -> Result<(), Fail> {
    let mut text = Vec::new(rt.alloc());
    for _ in 0..4096 {
        text.extend_from_slice(b"4294967295\n")?;
    }
    assert!(rt; printed::<Size>(&text).as_bytes() == b"s 17592186040320\n".as_slice());
    text.extend_from_slice(b"1\n")?;
    assert!(rt; answer_text::<Size>(&text).is_err());
    assert!(rt; printed::<Size>(&text).as_bytes() == b"c refused 17 4097\n".as_slice());
    Ok(())
}
