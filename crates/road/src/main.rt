// Looks for a shortest open way in an example chart, at three stages of its flows, and prints the moves by the numbers of
// their feeds: + forward, - backward. Where no open way is left it prints the steps that open moves reach.
#![tactic(auto)]

use kinds::size::Size;
use maps::Chart;
use maps::moves::Move;
use search::NoRoad;
use sheets::Feed;

const STEPS: usize = 4;

fn size(mib: i64) -> Size {
    Size { mib }
}

fn feed(from: u16, to: u16, mib: i64) -> Feed<Size> {
    Feed {
        from,
        to,
        price: size(mib),
    }
}

fn show(rt: &HostRuntime, chart: Chart<Size>, flows: &[Size]) -> anyhow::Result<()> {
    print!(rt; "flows")?;
    for total in flows {
        print!(rt; " {}", total.mib)?;
    }
    match chart.open_way(flows) {
        Ok(road) => {
            print!(rt; ": way")?;
            for arc in road.arcs() {
                match Move::from(usize::from(*arc)) {
                    Move::Forward(k) => print!(rt; " +{}", k + 1)?,
                    Move::Backward(k) => print!(rt; " -{}", k + 1)?,
                }
            }
        }
        Err(NoRoad::Missing(reach)) => {
            print!(rt; ": reached")?;
            for step in (1..=STEPS).filter(|step| reach.reaches(*step)) {
                print!(rt; " {step}")?;
            }
        }
        Err(NoRoad::OutOfRange) => print!(rt; ": out of range")?,
    }
    println!(rt; "")?;
    Ok(())
}

fn main(rt: HostRuntime) -> anyhow::Result<()> {
    // the five feeds of the tests' example too: a crate for them alone would be longer
    let feeds = [
        feed(1, 2, 2),
        feed(1, 3, 7),
        feed(2, 3, 1),
        feed(2, 4, 5),
        feed(3, 4, 2),
    ];
    let chart = Chart {
        steps: STEPS,
        source: 1,
        sink: STEPS,
        feeds: &feeds,
        bars: &[],
    };
    for flows in [[0, 0, 0, 0, 0], [2, 2, 0, 2, 2], [2, 5, -3, 5, 2]] {
        show(&rt, chart, &flows.map(size))?;
    }
    Ok(())
}
