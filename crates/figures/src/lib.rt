// Figures that are known beforehand, drawn from the rules by computing.
#![tactic(auto)]

ghost use Rattle.figures.specs.Figures.{ReferenceFigures};

pub fn reference_figures()
    ensures { ReferenceFigures }
{}
