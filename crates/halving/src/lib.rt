// Why committees that agree by halves agree, and at what cost: theory alone, for every lawful base agreement and every lawful graded
// agreement, against an adversary that takes over parties as it goes on. Each function carries a theorem; its proof is what the check asks for.
#![tactic(auto)]

ghost use Rattle.halving.specs.Frozen.{PlaysFreeze};
ghost use Rattle.halving.specs.Theorems.{HalvesAgree, HalvingStaysWithinBound, ExecutionsExist, HonestExecutionsEndSure};

// A play is also a play with all those corrupt from the start that are corrupt in the end.
pub fn plays_freeze<R>()
    ensures { PlaysFreeze R }
{}

// With fewer than a d-th of its parties corrupt at the very end, any two that end honest leave a committee with one day, their common one if
// they have one.
pub fn halves_agree<B, G>()
    ensures { HalvesAgree B G }
{}

// However many are corrupt, s parties send at most 22s² − 11 signatures while honest.
pub fn halving_stays_within_bound<B, G>()
    ensures { HalvingStaysWithinBound B G }
{}

// There are executions of every tree, on all days, whoever is corrupted when.
pub fn executions_exist<B, G>()
    ensures { ExecutionsExist B G }
{}

// Where nobody is corrupt before the last report, all hold one day at grade 1 when it opens.
pub fn honest_executions_end_sure<B, G>()
    ensures { HonestExecutionsEndSure B G }
{}
