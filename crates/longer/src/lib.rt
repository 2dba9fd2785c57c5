// What a longer list of numbers does to a search: definitions in specs/, the theorem in proofs/, no code.
#![tactic(auto)]
