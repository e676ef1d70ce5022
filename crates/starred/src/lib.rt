// The scope's starred points as one table with one theorem: no code, only specs/ and proofs/.
#![tactic(auto)]
