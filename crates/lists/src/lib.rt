// No code: lists, what is kept and counted of them, and what follows, stand in specs.
#![tactic(auto)]
