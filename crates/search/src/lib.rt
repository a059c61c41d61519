// One breadth-first search, on any map of steps: a road with the fewest arcs, or exactly the steps that are reached.
#![tactic(auto)]

ghost use Rattle.std.specs.Prelude.{◌≡◌, ◌+◌, ◌-◌, ◌<◌, ◌∷◌, [], ◌++◌, true, false, Some, IfSome, IsTrue, MatchOption, replicate, slice_index, slice_set};
ghost use Rattle.std.specs.Bool.{OnTrue, OnFalse};
ghost use Rattle.arrayvec.specs.ArrayVec.{array_vec_len};
ghost use Rattle.search.specs.Answers.{Answers, Explores, ShortestRoad, Takes};
ghost use Rattle.search.specs.Index.{arc_in};
ghost use Rattle.search.specs.Inside.{Step, is_step};
ghost use Rattle.search.specs.Table.{Fits};
ghost use Rattle.search.specs.Work.{next_step};

use self::map::Map;
use self::reach::{Parent, Reach};
use self::road::Road;
use arrayvec::ArrayVec;

pub mod map;
pub mod reach;
pub mod road;

// The most steps and arcs that a search takes.
const MOST_STEPS: usize = 1_024;

const MOST_ARCS: usize = 8_192;

// Why no road is answered. An enum and no `Option`, so that both causes have a name.
#[derive(Drop)]
pub enum NoRoad {
    // Too many steps or arcs, or start or goal is no step.
    OutOfRange,
    // There is none. These are the steps to which passable arcs lead from the start.
    Missing(Reach),
}

// A road from start to goal with the fewest arcs (shortest path), on the steps 1 to `steps`.
pub fn search<M: Map>(map: &M, steps: usize, start: usize, goal: usize) -> Result<Road, NoRoad>
    ensures { Answers (M.size map.now) (M.graph map.now) steps start goal result }
{
    let Some(question) = Question::new(map, steps, start) else {
        return Err(NoRoad::OutOfRange);
    };
    if !question.is_step(goal) {
        return Err(NoRoad::OutOfRange);
    }
    let reach = question.spread(Some(goal));
    if !reach.reaches(goal) {
        return Err(NoRoad::Missing(reach));
    }
    Ok(question.road_to(&reach, goal))
}

// The steps of 1 to `steps` to which passable arcs lead from the start; none where there are too many steps or arcs, or
// the start is no step.
pub fn explore<M: Map>(map: &M, steps: usize, start: usize) -> Option<Reach>
    ensures { Explores (M.size map.now) (M.graph map.now) steps start result }
{
    Some(Question::new(map, steps, start)?.spread(None))
}

// A question that a search takes: a map with its number of arcs, its steps 1 to `steps`, and the one to start from.
#[derive(Drop)]
struct Question<'a, M: Map> {
    map: &'a M,
    arcs: usize,
    steps: usize,
    start: usize,
    ghost all_arcs: { arcs ≡ M.size map.now },
    ghost taken: { Takes arcs steps start },
}

impl<'a, M: Map> Question<'a, M> {
    ghost use Rattle.search.specs.Record.{reached};
    ghost use Rattle.search.specs.Progress.{Fresh, Known};
    ghost use Rattle.search.specs.Question.{graph_of, Poses, IndexedFrom, Going, Searched, Whole};

    // None where a search does not take the question.
    fn new(map: &'a M, steps: usize, start: usize) -> Option<Self>
        ensures { MatchOption result (Takes (M.size map.now) steps start → ⊥)
            (λ q. Poses q (M.size map.now) (M.graph map.now) steps start) }
    {
        let arcs = map.arcs();
        if arcs > MOST_ARCS || steps > MOST_STEPS || !(1..=steps).contains(&start) {
            return None;
        }
        Some(Question {
            map,
            arcs,
            steps,
            start,
        })
    }

    // Whether there is such a step.
    fn is_step(&self, step: usize) -> bool
        ensures { result ≡ is_step self.now.steps step }
    {
        (1..=self.steps).contains(&step)
    }

    // Puts arc k into the index, before those above it, where it leaves one of the steps. Here and below k is a plain number,
    // as in the index.
    fn link(&self, index: &mut Index, k: usize)
        requires below { k < self.now.arcs }
        requires indexed { IndexedFrom self.now index.old (k + 1) }
        ensures { IndexedFrom self.now index.new k }
    {
        let from = self.map.ends(k).from;
        if self.is_step(from) {
            index.put(from, k);
        }
    }

    // Whether the search goes along arc k: one may pass it, to a step that was not reached yet.
    fn is_fresh(&self, reach: &Reach, k: usize) -> bool
        requires { k < self.now.arcs }
        ensures fresh { OnTrue result (Fresh (graph_of self.now) reach.now.parents k) }
        ensures other { OnFalse result (IsTrue ((graph_of self.now).passable k) → Known reach.now.parents ((graph_of self.now).to k)) }
    {
        let to = self.map.ends(k).to;
        self.is_step(to) && !reach.reaches(to) && self.map.is_passable(k)
    }

    // Looks at arc k, which leaves the step that is next in the queue.
    fn look(&self, work: &mut Work, k: usize)
        requires below { k < self.now.arcs }
        requires leaves { next_step work.old ≡ Some ((graph_of self.now).from k) }
        requires progress { Going self.now work.old k }
        ensures next { next_step work.new ≡ next_step work.old }
        ensures done { work.new.done ≡ work.old.done }
        ensures progress { Going self.now work.new (k + 1) }
    {
        if self.is_fresh(&work.reach, k) {
            // loses nothing, since k is below 8,192
            work.push(self.map.ends(k).to, Parent::Along(k as u16));
        }
    }

    // Looks at the arcs of the step that is next in the queue.
    fn scan(&self, index: &Index, work: &mut Work, step: usize)
        requires next { next_step work.old ≡ Some step }
        requires indexed { IndexedFrom self.now index.now 0 }
        requires progress { Going self.now work.old 0 }
        ensures done { work.new.done ≡ work.old.done + 1 }
        ensures progress { Going self.now work.new 0 }
    {
        let mut next = index.first(step);
        while let Some(k) = next {
            self.look(work, k);
            next = index.after(k);
        }
        work.done += 1;
    }

    // Goes breadth first from the start, until the goal is reached, where there is one, or nothing is left.
    fn spread(&self, goal: Option<usize>) -> Reach
        ensures searched { Searched self.now result }
        ensures whole { IfSome goal (λ g. reached result g ≡ false) → Whole self.now result }
    {
        let mut index = Index::new();
        for k in (0..self.arcs).rev() {
            self.link(&mut index, k);
        }
        let mut work = Work {
            reach: Reach::none(),
            queue: ArrayVec::new(),
            done: 0,
        };
        work.push(self.start, Parent::Start);
        while let Some(step) = work.next_step() {
            if goal.is_some_and(|goal| work.reach.reaches(goal)) {
                break;
            }
            self.scan(&index, &mut work, step);
        }
        work.reach
    }

    // Reads the road to the goal off the parents, from its last arc to its first.
    fn road_to(&self, reach: &Reach, goal: usize) -> Road
        requires searched { Searched self.now reach.now }
        requires reached { reached reach.now goal ≡ true }
        ensures { ShortestRoad (graph_of self.now) self.now.start result goal }
    {
        let mut arcs = ArrayVec::new();
        let mut step = goal;
        while let Some(k) = reach.arc_to(step) {
            arcs.push(k);
            step = self.map.ends(usize::from(k)).from;
        }
        arcs.reverse();
        Road { arcs }
    }
}

// The steps reached so far, and the queue of them in the order in which they were reached; its first `done` are done. That
// place is counted by hand, since the queue grows while it is gone through, so that no iterator can lend it.
#[derive(Drop)]
struct Work {
    reach: Reach,
    queue: ArrayVec<u16, MOST_STEPS>,
    done: usize,
}

impl Work {
    // Notes that a step was reached.
    fn push(&mut self, step: usize, parent: Parent)
        requires step { Step 1024 step }
        requires fits { Fits parent }
        requires room { array_vec_len self.old.queue < 1024 }
        ensures parents { self.new.reach.parents ≡ slice_set self.old.reach.parents (step - 1) (Some parent) }
        ensures queue { self.new.queue.items ≡ self.old.queue.items ++ step ∷ [] }
        ensures done { self.new.done ≡ self.old.done }
    {
        self.reach.note(step, parent);
        // loses nothing, since steps are at most 1,024
        self.queue.push(step as u16);
    }

    // The step that is next in the queue.
    fn next_step(&self) -> Option<usize>
        ensures { result ≡ next_step self.now }
    {
        self.queue.get(self.done).copied().map(usize::from)
    }
}

// The entry of no arc. With `Option<u16>` in the tables a search of the largest woven map took a fifth longer.
const NONE: u16 = u16::MAX;

// The arcs that leave each step, in rising order (adjacency lists): step v has its first at entry v - 1, and each arc has
// the next one. Two tables of arc numbers and no list for each step, since a search asks for no memory. Steps and arcs are
// plain numbers: a type for them would be made and taken apart at each use, as maps and tables hold numbers.
#[derive(Drop)]
struct Index {
    first: [u16; MOST_STEPS],
    next: [u16; MOST_ARCS],
}

impl Index {
    // No arc is in it.
    fn new() -> Self
        ensures first { result.first ≡ replicate 1024 65535 }
        ensures next { result.next ≡ replicate 8192 65535 }
    {
        Index {
            first: [NONE; MOST_STEPS],
            next: [NONE; MOST_ARCS],
        }
    }

    // Puts arc k, which leaves a step, before the others that leave it.
    fn put(&mut self, step: usize, k: usize)
        requires step { Step 1024 step }
        requires arc { k < 8192 }
        ensures first { self.new.first ≡ slice_set self.old.first (step - 1) k }
        ensures next { self.new.next ≡ slice_set self.old.next k (slice_index self.old.first (step - 1)) }
    {
        self.next[k] = self.first[step - 1];
        // loses nothing, since k is below 8,192
        self.first[step - 1] = k as u16;
    }

    // The first arc that leaves a step.
    fn first(&self, step: usize) -> Option<usize>
        requires { Step 1024 step }
        ensures { result ≡ arc_in (slice_index self.now.first (step - 1)) }
    {
        arc_in(self.first[step - 1])
    }

    // The next arc that leaves the same step as arc k.
    fn after(&self, k: usize) -> Option<usize>
        requires { k < 8192 }
        ensures { result ≡ arc_in (slice_index self.now.next k) }
    {
        arc_in(self.next[k])
    }
}

// The arc that an entry holds.
fn arc_in(entry: u16) -> Option<usize>
    ensures { result ≡ arc_in entry }
{
    (entry != NONE).then_some(usize::from(entry))
}
