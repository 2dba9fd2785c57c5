// The mapper's two lists as definitions: what their rows say, the plan that they mean, and what is turned away. There is no code here.
#![tactic(auto)]
