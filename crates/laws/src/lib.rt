// No code: definitions that several crates share stand in specs/, laws about them in proofs/.
#![tactic(auto)]
