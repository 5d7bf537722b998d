// No code: what each call of a builder makes of its script and its buffer stands in specs/, worked examples and theorems in proofs/.
#![tactic(auto)]
