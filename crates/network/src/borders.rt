// Borders, by the ways that cross them and by their feeds.
ghost use Rattle.network.specs.Laws.{OnceIsNoneBack, UnbarredIsKept, UnlimitedIsNoneAllowed, UnlimitedIsAlwaysBarred};

// Where no step is idle: every way crosses a border exactly once just where no feed runs back.
pub fn once_is_none_back()
    ensures { OnceIsNoneBack }
{}

// Where besides no feed runs back: every way crosses at an unbarred feed just where no kept feed is barred.
pub fn unbarred_is_kept()
    ensures { UnbarredIsKept }
{}

// Each border has a feed that runs back or keeps a barred feed just where moves without limit lead from source to sink.
pub fn unlimited_is_none_allowed()
    ensures { UnlimitedIsNoneAllowed }
{}

// Where no step is idle, the same holds just where each border that every way crosses exactly once keeps a barred feed.
pub fn unlimited_is_always_barred()
    ensures { UnlimitedIsAlwaysBarred }
{}
