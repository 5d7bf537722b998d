// No code: document 01's marked examples stand in specs/, what the definitions compute beside what the paper says, and the theorem that both agree in proofs/.
#![tactic(auto)]
