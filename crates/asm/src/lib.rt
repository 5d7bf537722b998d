// No code: what the text of a script is stands in specs/, worked examples and the theorem that ties it to the walk in proofs/.
#![tactic(auto)]
