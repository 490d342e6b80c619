// Lists of calls and streams: in order again after each call, so that a stream asks questions 1 and 2 once. Proofs only.

#![tactic(auto)]
