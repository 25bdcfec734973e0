// What is proved of the definitions and the calls together (specs/, proofs/). There is no code to run.
#![tactic(auto)]
