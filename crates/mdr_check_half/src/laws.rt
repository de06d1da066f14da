// What holds of the program of a user half's text.

ghost use Rattle.mdr_check_half.specs.HalfLaws.{PlansSuitTheirHalves};

/// A plan that is read suits the program that a text has with it.
pub fn plans_suit_their_halves()
    ensures { PlansSuitTheirHalves }
{}
