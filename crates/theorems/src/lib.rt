// What follows of the crates `kept` and `reached` together: question 2 is never answered by a chart that grew from the empty one.

#![tactic(auto)]
