// No code: the rules of the report line, and what follows from them, stand in specs.
#![tactic(auto)]
