// No code: the rules of the grouping of proteins, and what follows from them, stand in specs.
#![tactic(auto)]
