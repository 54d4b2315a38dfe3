// Executions as their rules see them: what each call does, when it is refused, and what holds of every history of calls; theory alone, for
// every lawful base agreement. Each function carries a theorem; its proof is what the check asks for.
#![tactic(auto)]

ghost use Rattle.runs.specs.Theorems.{CallsHaveOneOutcome, OpeningsHaveOneOutcome, OpeningsFollowTheRules, OverAfterThePlan, HistoriesKeepToTheirRoom, CountsWhatWasSent, SendsAsPrescribed, SettlesAsPrescribed};

// The rules allow exactly one outcome of every call in every state, and it can be computed.
pub fn calls_have_one_outcome<B, G>()
    ensures { CallsHaveOneOutcome B G }
{}

// The rules allow exactly one outcome of every opening: refused by the least number that prevents it, or an execution.
pub fn openings_have_one_outcome<B, G>()
    ensures { OpeningsHaveOneOutcome B G }
{}

// In an opened execution the first round of the plan is open, as the rules say of every round, whatever the wire held.
pub fn openings_follow_the_rules<B, G>()
    ensures { OpeningsFollowTheRules B G }
{}

// In every history an execution is over exactly when all rounds of the plan have closed, and then every honest party has a decision.
pub fn over_after_the_plan<B, G>()
    ensures { OverAfterThePlan B G }
{}

// In every history at most as many parties are corrupt as may be, slots that do not belong to the execution keep what they held, and the
// others are empty when it is over.
pub fn histories_keep_to_their_room<B, G>()
    ensures { HistoriesKeepToTheirRoom B G }
{}

// In every history the counter is the signatures on what stood on the wire when rounds opened.
pub fn counts_what_was_sent<B, G>()
    ensures { CountsWhatWasSent B G }
{}

// In every history, in every open round, there stands from an honest party what it has to say, to all seats alike; from a corrupt one nothing,
// or what could be injected; and nothing else.
pub fn sends_as_prescribed<B, G>()
    ensures { SendsAsPrescribed B G }
{}

// In every history an honest party holds what its input and what it heard give, day and grade at every depth, its decision among them.
pub fn settles_as_prescribed<B, G>()
    ensures { SettlesAsPrescribed B G }
{}
