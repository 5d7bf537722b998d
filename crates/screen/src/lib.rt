// No code: what the inspector shows of a script stands in specs/, how long a screen can be in proofs/.
#![tactic(auto)]
