// Texts in the form of the 2006 pseudo-Boolean evaluation (document 02, T-02): definitions in specs/, theorems in proofs/.
#![tactic(auto)]
