// What opening, flip and counts answer and leave, and demand 3 over them: definitions in specs/, theorems in proofs/, no code.
#![tactic(auto)]
