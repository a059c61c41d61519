use kinds::ranked::Ranked;
use kinds::size::Size;
use maps::Chart;
use price::kind::Price;
use search::NoRoad;
use search::reach::Reach;
use search::road::Road;
use sheets::Feed;

fn feed(from: u16, to: u16, size: u64) -> Feed<Ranked> {
    Feed {
        from,
        to,
        price: Ranked { rank: 0, size },
    }
}

// Four steps and five feeds, those that `road` shows: a crate for them alone would be longer than the five lines.
fn example() -> [Feed<Ranked>; 5] {
    [
        feed(1, 2, 2),
        feed(1, 3, 7),
        feed(2, 3, 1),
        feed(2, 4, 5),
        feed(3, 4, 2),
    ]
}

fn chart<'a, P: Price>(
    steps: usize,
    source: usize,
    sink: usize,
    feeds: &'a [Feed<P>],
    bars: &'a [u8],
) -> Chart<'a, P> {
    Chart {
        steps,
        source,
        sink,
        feeds,
        bars,
    }
}

// Whether the answer is the road by these arcs: the feed at place k forward is arc 2k, backward arc 2k + 1.
fn is_road(answer: Result<Road, NoRoad>, arcs: &[u16]) -> bool {
    answer.is_ok_and(|road| road.arcs() == arcs)
}

// Whether of the steps 0 to 5 just those marked are reached.
fn is_marked(reach: &Reach, marks: [bool; 6]) -> bool {
    marks
        .iter()
        .enumerate()
        .all(|(step, mark)| reach.reaches(step) == *mark)
}

// Whether there is no road, and just the steps marked are reached.
fn is_missing(answer: Result<Road, NoRoad>, marks: [bool; 6]) -> bool {
    matches!(answer, Err(NoRoad::Missing(reach)) if is_marked(&reach, marks))
}

fn is_out_of_range(answer: Result<Road, NoRoad>) -> bool {
    matches!(answer, Err(NoRoad::OutOfRange))
}

#[test]
fn moves_without_limit(rt: HostRuntime) {
    let feeds = example();
    // feed 4 barred: it does not leave the source
    assert!(rt;
        is_missing(
            chart(4, 1, 4, &feeds, &[0, 0, 0, 1, 0]).unlimited_way(),
            [false, true, false, false, false, false],
        )
    );
    // feeds 2 and 4 barred: forward by 2, backward by 3, forward by 4
    assert!(rt;
        is_road(
            chart(4, 1, 4, &feeds, &[0, 1, 0, 1, 0]).unlimited_way(),
            &[2, 5, 6]
        )
    );
    // a bar byte of 2 is no bar
    assert!(rt;
        is_missing(
            chart(4, 1, 4, &feeds, &[0, 2, 0, 2, 0]).unlimited_way(),
            [false, true, false, false, false, false],
        )
    );
}

#[test]
fn open_moves(rt: HostRuntime) {
    let feeds = example();
    let total = Ranked { rank: 0, size: 2 };
    let none = Ranked { rank: 0, size: 0 };
    assert!(rt; is_road(chart(4, 1, 4, &feeds, &[]).open_way(&[]), &[0, 6]));
    // feeds 1 and 5 are full
    assert!(rt;
        is_road(
            chart(4, 1, 4, &feeds, &[]).open_way(&[total, total, none, total, total]),
            &[2, 5, 6],
        )
    );
    // a full feed that is barred stays open
    assert!(rt;
        is_road(
            chart(4, 1, 4, &feeds, &[1]).open_way(&[total, total, none, total, total]),
            &[0, 6],
        )
    );
    // from the sink everything is open backward, up to the source
    assert!(rt; is_road(chart(4, 4, 1, &feeds, &[]).open_way(&[]), &[7, 1]));
}

#[test]
fn limits(rt: HostRuntime) {
    let feeds = example();
    assert!(rt; is_out_of_range(chart(1_025, 1, 4, &feeds, &[]).open_way(&[])));
    assert!(rt; is_road(chart(1_024, 1, 4, &feeds, &[]).open_way(&[]), &[0, 6]));
    assert!(rt; is_out_of_range(chart(4, 0, 4, &feeds, &[]).open_way(&[])));
    assert!(rt; is_out_of_range(chart(4, 1, 0, &feeds, &[]).open_way(&[])));
    assert!(rt; is_out_of_range(chart(4, 5, 4, &feeds, &[]).open_way(&[])));
    assert!(rt; is_out_of_range(chart(4, 1, 5, &feeds, &[]).open_way(&[])));
    // from a step to itself no arc is passed
    assert!(rt; is_road(chart(4, 2, 2, &feeds, &[]).open_way(&[]), &[]));
    let many = [Feed {
        from: 1,
        to: 2,
        price: Size { mib: 1 },
    }; 4097];
    assert!(rt; is_out_of_range(chart(2, 1, 2, &many, &[]).open_way(&[])));
    assert!(rt; is_road(chart(2, 1, 2, &many[1..], &[]).open_way(&[]), &[0]));
}

// Steps 3 and 4 are beyond the last step, so feeds to them are not taken.
#[test]
fn feeds_that_lead_out(rt: HostRuntime) {
    let feeds = [feed(1, 3, 1), feed(3, 2, 1), feed(4, 2, 1)];
    assert!(rt;
        is_missing(
            chart(2, 1, 2, &feeds, &[]).open_way(&[]),
            [false, true, false, false, false, false],
        )
    );
}

// The fifth step is on no feed.
#[test]
fn steps_reached(rt: HostRuntime) {
    let feeds = example();
    let ahead = chart(5, 2, 1, &feeds, &[]).from_source();
    let behind = chart(5, 1, 3, &feeds, &[]).to_sink();
    assert!(rt;
        ahead.is_some_and(|reach| is_marked(&reach, [false, false, true, true, true, false]))
    );
    assert!(rt;
        behind.is_some_and(|reach| is_marked(&reach, [false, true, true, true, false, false]))
    );
    assert!(rt; chart(5, 6, 1, &feeds, &[]).from_source().is_none());
    assert!(rt; chart(1_025, 1, 4, &feeds, &[]).to_sink().is_none());
}
