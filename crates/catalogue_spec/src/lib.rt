// No code: what names, catalogues and sequence books are, what their tests answer, and what follows, stand in specs.
#![tactic(auto)]
