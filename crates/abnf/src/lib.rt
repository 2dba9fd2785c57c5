// RFC 4180's rules as they are printed, and the theorem that rows are read by them. There is no code here.
#![tactic(auto)]
