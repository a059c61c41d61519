// What a search over numbered arcs and a list of flows serve for.
ghost use Rattle.network.specs.Laws.{NumberedAreMoves, FewestIsShortest, OnWayIsReached, WrittenIsAlong};

// Walks over numbered arcs are walks over moves, and back.
pub fn numbered_are_moves()
    ensures { NumberedAreMoves }
{}

// So a road with the fewest numbered arcs is a shortest open way.
pub fn fewest_is_shortest()
    ensures { FewestIsShortest }
{}

// A step lies on a way just where feeds lead to it from the source, and reversed feeds from the sink.
pub fn on_way_is_reached()
    ensures { OnWayIsReached }
{}

// Flows written into a list, one entry for each move in turn, are the flows after the raise.
pub fn written_is_along()
    ensures { WrittenIsAlong }
{}
