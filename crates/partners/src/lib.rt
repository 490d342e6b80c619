// Who has a partner in demand 3: every list of calls has itself, renamings compose, and a literal pair that has every kind of event, text and row.

#![tactic(auto)]
