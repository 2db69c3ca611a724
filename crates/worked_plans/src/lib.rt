// Figures, orders and a plan worked by hand, as one list of equations about the definitions that the contracts cite.
#![tactic(auto)]

ghost use Rattle.worked_plans.specs.Figures.{WorkedPlans};

pub fn worked_plans_hold()
    ensures { WorkedPlans }
{}
