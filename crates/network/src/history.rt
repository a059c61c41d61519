// The chart that a history of calls makes.
ghost use Rattle.network.specs.Laws.{LatestDecides, CallsCount};

// A feed's ends come from the enter that made it, its price and bar from the latest served call that sets them.
pub fn latest_decides()
    ensures { LatestDecides }
{}

// Each served enter makes one feed more. Each served raise counts, and a served begin starts the count anew. A refused
// call changes nothing.
pub fn calls_count()
    ensures { CallsCount }
{}
