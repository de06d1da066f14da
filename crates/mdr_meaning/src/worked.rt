// Small bodies worked out, each as a function that does nothing.

ghost use Rattle.mdr_meaning.specs.Worked.{CountsDown, Sums, Renews, Overflows, Divides, FillsObject, AsksForObject, BreaksOut, ReturnsOut};
ghost use Rattle.mdr_meaning.specs.Worked.{Dangles, GivesOwn, GivesOuter, GivesOthers, FillsText, Allocates, Calls, Narrows, Deepens};
ghost use Rattle.mdr_meaning.specs.Worked.{MakesRing, WalksRing, TakesNode, LosesNode, KeepsToken, AddsFour, AddsFive};
ghost use Rattle.mdr_meaning.specs.WorkedStops.{StopsHavePlaces, PartsHaveAnOrder, ServicesAreAsked};

/// Loops take a tick for each test, `continue` goes to the step, and a slot is zero each time it is declared.
pub fn loops_turn()
    ensures down { CountsDown }
    ensures up { Sums }
    ensures zeroed { Renews }
{}

/// Unsigned sums wrap, signed ones stop, and `&&` and `||` evaluate no more than they need.
pub fn operators_work()
    ensures sums { Overflows }
    ensures quotients { Divides }
{}

/// An object of a local is born when its declaration runs, and dies where its block ends or the function returns. A
/// result that points into it is dead then; one that points to what lives on is not.
pub fn objects_live_and_die()
    ensures filled { FillsObject }
    ensures asked { AsksForObject }
    ensures left { BreaksOut }
    ensures returned { ReturnsOut }
    ensures dangling { Dangles }
    ensures own { GivesOwn }
    ensures outer { GivesOuter }
    ensures others { GivesOthers }
    ensures text { FillsText }
    ensures heap { Allocates }
{}

/// Bodies of the own side are entered, at most 256 deep, other functions are crossings, and values convert.
pub fn calls_are_made()
    ensures through { Calls }
    ensures narrowed { Narrows }
    ensures deep { Deepens }
{}

/// Pointers lead to structs, arrays end, and a pointer to a freed object stops where it is read, not where it stands.
pub fn pointers_are_followed()
    ensures made { MakesRing }
    ensures ring { WalksRing }
    ensures alias { TakesNode }
    ensures lost { LosesNode }
    ensures kept { KeepsToken }
    ensures four { AddsFour }
    ensures five { AddsFive }
{}

/// Each stop that code itself comes to has its place.
pub fn stops_have_places()
    ensures { StopsHavePlaces }
{}

/// What is evaluated first shows by the stop that comes.
pub fn parts_have_an_order()
    ensures { PartsHaveAnOrder }
{}

/// A text is made of its directives' numbers, and service 15 calls.
pub fn services_are_asked()
    ensures { ServicesAreAsked }
{}
