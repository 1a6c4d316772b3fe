// No code: the rules of the cover and of its update stand in specs, and what follows from them there and in proofs.
#![tactic(auto)]
