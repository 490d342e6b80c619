// Proofs only: every accepted event keeps the chart rules.

#![tactic(auto)]
