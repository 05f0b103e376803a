// What stays of a pack when a request changes some words of it: laws alone, no code.
#![tactic(auto)]
