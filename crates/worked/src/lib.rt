// Figures worked by hand, as one list of equations about the definitions that the contracts cite.
#![tactic(auto)]

ghost use Rattle.worked.specs.Figures.{WorkedFigures, LaterInstance};

pub fn worked_figures_hold()
    ensures { WorkedFigures }
{}

// An instance of a busy period can be later than the first one.
pub fn later_instance_exists()
    ensures { LaterInstance }
{}
