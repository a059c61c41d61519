// Raises along open ways.
ghost use Rattle.network.specs.Laws.{LeastSpareExists, RaiseKeepsFlow, FlowsWithinTotal, FlowsWithinPrices, FlowsWithinLimit, RaiseOrClose, FewRaises};

// Where moves without limit do not lead to the sink, every open way has a least spare.
pub fn least_spare_exists()
    ensures { LeastSpareExists }
{}

// A raise along an open way by its least spare, which is positive, keeps steps balanced and prices observed.
pub fn raise_keeps_flow()
    ensures { RaiseKeepsFlow }
{}

// After raises the value is the total raised, and no flow exceeds it on either side of 0.
pub fn flows_within_total()
    ensures { FlowsWithinTotal }
{}

// Nor the sum of the prices, where moves without limit do not lead to the sink.
pub fn flows_within_prices()
    ensures { FlowsWithinPrices }
{}

// Nor, in a chart within the limits, 4,096 times the largest price.
pub fn flows_within_limit()
    ensures { FlowsWithinLimit }
{}

// Either a shortest open way is left, or the border can be closed, never both.
pub fn raise_or_close()
    ensures { RaiseOrClose }
{}

// From zero flows on there are at most steps times feeds raises.
pub fn few_raises()
    ensures { FewRaises }
{}
