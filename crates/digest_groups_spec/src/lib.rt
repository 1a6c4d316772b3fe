// No code: what the groups of digests are stands in specs.
#![tactic(auto)]
