// The theory of lists of turns: definitions in specs/, laws in proofs/.
#![tactic(auto)]
