use refusal::Refusal;

#[test]
fn refusal_lines(rt: HostRuntime) {
    let cases: [(Refusal, &[u8]); 6] = [
        (Refusal::StepCount { line: 1 }, b"c refused 11 1\n"),
        (Refusal::NoSuchNumber { number: 5 }, b"c refused 14 5\n"),
        (Refusal::UnfitFeed { feed: 4096 }, b"c refused 19 4096\n"),
        (Refusal::NoBorder, b"c refused 21 0\n"),
        (Refusal::ArcCount { line: 65537 }, b"c refused 35 65537\n"),
        (Refusal::BarredFeed { feed: 2 }, b"c refused 37 2\n"),
    ];
    for (refusal, line) in cases {
        assert!(rt; refusal.line().as_bytes() == line);
    }
}

#[test]
fn short_buffer(rt: HostRuntime) {
    let mut buffer = [7u8; 16];
    assert!(rt; Refusal::NoBorder.write_line(&mut buffer).is_ok());
    assert!(rt; buffer == *b"c refused 21 0\n\x07");
    let mut short = [7u8; 14];
    assert!(rt; Refusal::NoBorder.write_line(&mut short) == Err(Refusal::ShortBuffer));
    assert!(rt; short == [7u8; 14]);
}
