// What holds of the graded agreement. Each function carries a theorem; its proof is what the check asks for.
ghost use Rattle.graded.specs.Facts.{GradesBelowHalf, FormsAreSigned, KeepsDiscipline, CostsAtMost};
ghost use Rattle.graded.specs.Figure.{FollowsFigure2};

// What a seat sends, and what it leaves with, is fixed by what it heard, as Figure 2 prescribes.
pub fn follows_figure_2()
    ensures { FollowsFigure2 }
{}

// With fewer than half of the seats corrupt at the end, grade 1 fixes the day, and a common input comes out at grade 1.
pub fn grades_below_half()
    ensures { GradesBelowHalf }
{}

// What has a form is signed by seats, and a certificate by a quorum of them.
pub fn forms_are_signed()
    ensures { FormsAreSigned }
{}

// Honest seats sign and pass on only what they may, and leave with days.
pub fn keeps_discipline()
    ensures { KeepsDiscipline }
{}

// Honest seats send at most 5k² signatures, however many are corrupt.
pub fn costs_at_most()
    ensures { CostsAtMost }
{}
