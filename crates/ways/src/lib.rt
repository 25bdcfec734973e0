// Openings over any kind of place: definitions (specs/) and their laws (proofs/) only. There is no code to run.
#![tactic(auto)]
