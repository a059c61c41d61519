// Searches maps of four families, each in four sizes. With a word after its name, as in `searchbench times`, it also tells
// how long a search takes, and how size and time grow.
#![tactic(auto)]

use anyhow::bail;
use kinds::size::Size;
use maps::Chart;
use search::NoRoad;
use sheets::Feed;
use std::time::Instant;
use std::{env, fmt};

// How many searches are timed together.
const TURNS: u32 = 2_000;

#[derive(Clone, Copy)]
enum Family {
    // One step after the other.
    Chain,
    // A chain of half the steps, and from its end a feed to each of the others.
    Broom,
    // Four feeds to each step, from steps before it all over the map.
    Woven,
    // A feed from each step to each later one.
    Dense,
}

impl fmt::Display for Family {
    fn fmt<W: fmt::Write>(&self, f: &mut fmt::Formatter<W>) -> fmt::Result {
        f.write_str(match self {
            Family::Chain => "chain",
            Family::Broom => "broom",
            Family::Woven => "woven",
            Family::Dense => "dense",
        })
    }
}

impl Family {
    // The steps of four maps, each with about twice as many steps and arcs as the one before.
    fn sizes(self) -> [u16; 4] {
        match self {
            Family::Dense => [32, 45, 64, 90],
            _ => [127, 255, 511, 1_023],
        }
    }

    // Puts the feeds to one step after the other. The family is asked at each: a closure for each family would be as long, and
    // all four would be alike but for these lines.
    fn fill(self, feeds: &mut Vec<Feed<Size>>, steps: u16) -> anyhow::Result<()> {
        for before in 1..steps {
            let to = before + 1;
            match self {
                Family::Chain => put(feeds, before, to)?,
                Family::Broom => put(feeds, before.min(steps / 2), to)?,
                Family::Woven => {
                    for j in 0..4u16 {
                        put(feeds, to.wrapping_mul(j * 97 + 31) % before + 1, to)?;
                    }
                }
                Family::Dense => {
                    for from in 1..to {
                        put(feeds, from, to)?;
                    }
                }
            }
        }
        Ok(())
    }
}

fn put(feeds: &mut Vec<Feed<Size>>, from: u16, to: u16) -> anyhow::Result<()> {
    feeds.push(Feed {
        from,
        to,
        price: Size { mib: 1 },
    })?;
    Ok(())
}

// How many steps open moves reach from the source, where none leads to the sink.
fn reached(chart: Chart<Size>) -> anyhow::Result<usize> {
    let Err(NoRoad::Missing(reach)) = chart.open_way(&[]) else {
        bail!("a way was found, or the map is too large");
    };
    Ok(
        (1..=chart.steps)
            .filter(|step| reach.reaches(*step))
            .count(),
    )
}

// A map's steps and arcs together, and the nanoseconds that one search of it takes.
#[derive(Clone, Copy)]
struct Measure {
    size: u128,
    nanos: u128,
}

fn time_search(rt: &HostRuntime, chart: Chart<Size>) -> anyhow::Result<Measure> {
    let start = Instant::now(rt)?;
    // both casts widen: there is no `From<usize>`
    let missing = (0..TURNS)
        .filter(|_| matches!(chart.open_way(&[]), Err(NoRoad::Missing(_))))
        .count() as u128;
    let nanos = start.elapsed(rt)?.as_nanos() / missing.max(1);
    let size = chart
        .steps
        .saturating_add(chart.feeds.len().saturating_mul(2)) as u128;
    Ok(Measure { size, nanos })
}

// A number in percent of another.
fn percent(part: u128, whole: u128) -> u128 {
    part.saturating_mul(100) / whole.max(1)
}

// Shows the maps of a family. The step after a map's last is the goal: no feed leads to it, so that the search goes
// through the whole map.
fn show(rt: &HostRuntime, family: Family, timed: bool) -> anyhow::Result<()> {
    let mut first: Option<Measure> = None;
    for steps in family.sizes() {
        let mut feeds = Vec::new(rt.alloc());
        family.fill(&mut feeds, steps)?;
        let goal = usize::from(steps) + 1;
        let chart = Chart {
            steps: goal,
            source: 1,
            sink: goal,
            feeds: &feeds,
            bars: &[],
        };
        let arcs = feeds.len().saturating_mul(2);
        let count = reached(chart)?;
        println!(rt; "{family}: {goal} steps, {arcs} arcs, {count} reached")?;
        if timed {
            let now = time_search(rt, chart)?;
            let then = *first.get_or_insert(now);
            let size = percent(now.size, then.size);
            let time = percent(now.nanos, then.nanos);
            println!(rt;
                "  {} ns; of the first map {size} % of steps and arcs, {time} % of the time",
                now.nanos
            )?;
        }
    }
    Ok(())
}

fn main(rt: HostRuntime) -> anyhow::Result<()> {
    let timed = env::args(&rt)?.count() > 1;
    for family in [Family::Chain, Family::Broom, Family::Woven, Family::Dense] {
        show(&rt, family, timed)?;
    }
    Ok(())
}
