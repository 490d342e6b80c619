// Refusal numbers by cases written by hand, at document 01's own limits.

#![tactic(auto)]
