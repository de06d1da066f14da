// What holds of the plans that are made of programs.

ghost use Rattle.mdr_honest.specs.Plannable.{PlansAreCanonical, PlansAreRead};

/// The plan of a program and its halves has all its lines in the order in which a text has them.
pub fn a_slicers_plan_is_canonical()
    ensures { PlansAreCanonical }
{}

/// And its text is read as the plan.
pub fn a_slicers_plan_is_read_from_its_text()
    ensures { PlansAreRead }
{}
