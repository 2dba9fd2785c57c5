// What the text of a plan means (document 02, T-02; paper 004, Theorem 3): claims in specs/, theorems in proofs/.
#![tactic(auto)]
