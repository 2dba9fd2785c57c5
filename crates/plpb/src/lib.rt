// The logic of plans: definitions in specs/, theorems in proofs/, no code.
#![tactic(auto)]
