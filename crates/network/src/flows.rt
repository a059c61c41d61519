// Flows, and the borders that they prove to be the cheapest.
ghost use Rattle.network.specs.Laws.{ValueAcross, ValueAtMostCost, ClosedIsCheapest, ClosedIsBest, AuditedIsCheapest, ClosedIsAudited};

// What flows across a border is the value, whichever border it is.
pub fn value_across()
    ensures { ValueAcross }
{}

// No allowed border costs less than the value of a flow.
pub fn value_at_most_cost()
    ensures { ValueAtMostCost }
{}

// Where open moves do not reach the sink, the steps that they reach are an allowed border that costs the value. None
// costs less, and it lies inside every allowed border that costs the same.
pub fn closed_is_cheapest()
    ensures { ClosedIsCheapest }
{}

// Where besides no step is idle, it is the best of the borders that every way crosses once, at an unbarred feed.
pub fn closed_is_best()
    ensures { ClosedIsBest }
{}

// What fulfils the five conditions of an audit is an allowed border, and none costs less.
pub fn audited_is_cheapest()
    ensures { AuditedIsCheapest }
{}

// A closed border and its flows fulfil the five conditions.
pub fn closed_is_audited()
    ensures { ClosedIsAudited }
{}
