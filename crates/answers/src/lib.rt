// Demand 1: which numbers are answered, and what a refusal leaves. Proofs only.

#![tactic(auto)]
