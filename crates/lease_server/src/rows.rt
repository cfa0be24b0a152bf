// Examples of what lines ask, which core gets it, and what serves them in part.
ghost use Rattle.lease_server.specs.Examples.{SmallAsks, SmallRoutes, AsksNot, RoutesNot, ManyAsk, ServesInPart, ServesNotInPart, BeginsAnOutput, BeginsNoOutput};

/// Shows what five lines ask. One spells no request, and one has no line feed.
pub fn small_asks()
    ensures { SmallAsks }
{}

/// Shows which of two cores gets each of these requests, and the text of the refusals.
pub fn small_routes()
    ensures { SmallRoutes }
{}

/// Shows that two lines do not ask their requests swapped, by one number, or without one of them.
pub fn asks_not()
    ensures { AsksNot }
{}

/// Shows that a core does not get its requests in another order, or those of another core.
pub fn routes_not()
    ensures { RoutesNot }
{}

/// Shows what a thousand lines ask, and that each of four cores gets about a quarter.
pub fn many_ask()
    ensures { ManyAsk }
{}

/// Shows what serves three lines in part: no answer, that of the core alone, or a refusal after it.
pub fn serves_in_part()
    ensures { ServesInPart }
{}

/// Shows that a refusal of the third line does not, if the first was not refused.
pub fn serves_not_in_part()
    ensures { ServesNotInPart }
{}

/// Shows that an output that serves all of three lines begins with the reply to the second one.
pub fn begins_an_output()
    ensures { BeginsAnOutput }
{}

/// Shows that no output that serves them begins with the refusal of the third one.
pub fn begins_no_output()
    ensures { BeginsNoOutput }
{}
