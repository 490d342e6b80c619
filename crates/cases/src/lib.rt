// Calls from made-up stores: specs/ holds the cases, and proofs/ the theorems that none is wrong.

#![tactic(auto)]
