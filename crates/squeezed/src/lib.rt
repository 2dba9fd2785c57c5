// A plan squeezed after locking (document 02, T-12): definitions in specs/, theorems in proofs/.
#![tactic(auto)]
