// No function: the demands are theorems over the calls, in specs/ and proofs/.
#![tactic(auto)]
