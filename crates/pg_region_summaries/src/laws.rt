//! Laws on quiet functions.

ghost use Rattle.pg_region_summaries.specs.Laws.{QuietFunctionsPassQuiet, QuietFunctionsReachQuiet, SummariesAreSeen};
ghost use Rattle.pg_region_summaries.specs.Examples.{AdderIsQuiet};

/// A quiet function has no event, no access of the gated set, no `alloca`, and no call but of quiet functions and of those
/// that read the input.
pub fn quiet_functions_pass_quiet()
    ensures { QuietFunctionsPassQuiet }
{}

/// A function that the calls of a quiet one reach is quiet, and its calls don't come back to it.
pub fn quiet_functions_reach_quiet()
    ensures { QuietFunctionsReachQuiet }
{}

/// A summary has 1,024 accesses at most, each with a global, a constant or a parameter of the function as its root.
pub fn summaries_are_seen()
    ensures { SummariesAreSeen }
{}

/// A function that adds to the number at its first parameter reads and writes there, a call of it at the argument, and it
/// isn't quiet where its store is gated.
pub fn an_adder_is_quiet()
    ensures { AdderIsQuiet }
{}
