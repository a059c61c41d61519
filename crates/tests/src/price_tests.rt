use kinds::ranked::Ranked;
use kinds::size::Size;
use lines::line::Line;
use price::kind::{Price, flow_limit, is_same, is_within_flow_limit};
use price::written::Written;

#[test]
fn sizes(rt: HostRuntime) {
    let top = Size {
        mib: 72_057_594_021_150_720,
    };
    let one = Size { mib: 1 };
    assert!(rt; top.plus(one).mib == 72_057_594_021_150_720);
    assert!(rt; one.minus(top).minus(top).mib == -72_057_594_021_150_720);
    // what the kind does not name is read as the upper end
    assert!(rt; is_same(Size { mib: i64::MIN }, top));
    assert!(rt;
        is_within_flow_limit(Size {
            mib: -17_592_186_040_320,
        })
    );
    assert!(rt;
        !is_within_flow_limit(Size {
            mib: 17_592_186_040_321,
        })
    );
}

#[test]
fn ranked_totals(rt: HostRuntime) {
    let rank = Ranked { rank: 1, size: 0 };
    let five = Ranked { rank: 0, size: 5 };
    let left = rank.minus(five);
    assert!(rt; left.rank == 0);
    assert!(rt; left.size == 17_592_186_044_411);
    assert!(rt; left.plus(five).rank == 1);
    assert!(rt; five.minus(rank).rank == -1);
    assert!(rt; left < rank);
    let unnamed = Ranked {
        rank: 0,
        size: 17_592_186_044_416,
    };
    assert!(rt; unnamed > flow_limit());
    assert!(rt; flow_limit::<Ranked>().whole() == Some(1_080_881_502_754_959_360));
}

#[test]
fn digits(rt: HostRuntime) {
    let mut line = Line::new();
    let debt = Ranked { rank: -1, size: 1 };
    assert!(rt; debt.put_digits(&mut line).is_some());
    assert!(rt; line.as_bytes() == b"17592186044415".as_slice());
    assert!(rt; Size { mib: i64::MAX }.put_digits(&mut line).is_none());
    assert!(rt; line.as_bytes() == b"17592186044415".as_slice());
}
