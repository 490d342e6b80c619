// Internal errors: none from the empty chart. Proofs only.

#![tactic(auto)]
