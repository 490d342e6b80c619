// Demand 3 of the definition: what a renamed, masked partner of a list of calls is, and that it gets the same answers. Statements and proofs only.

#![tactic(auto)]
