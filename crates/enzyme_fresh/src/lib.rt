// No code: the ranges of an enzyme's set without the parts of repeated windows, and what follows from it, stand in specs.
#![tactic(auto)]
