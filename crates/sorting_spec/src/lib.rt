// No code: what a sorted list is, the order of lists, joined texts, and what follows, stand in specs.
#![tactic(auto)]
