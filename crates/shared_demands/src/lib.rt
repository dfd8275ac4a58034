// No function: the demands as requests amend them are theorems over the calls, in specs/ and proofs/.
#![tactic(auto)]
