// No code: how Bitcoin Core reads a script and what a walk says of it stand in specs/, the theorems about them in proofs/.
#![tactic(auto)]
