// No function: definitions and laws of tests, equations and lists that no crate above owns.
#![tactic(auto)]
