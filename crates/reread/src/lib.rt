// A plan's text read again (document 02, T-02): claims in specs/, theorems in proofs/.
#![tactic(auto)]
