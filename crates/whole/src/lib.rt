// What an accepted event leaves of everything that is lent: laws, for `write`.

#![tactic(auto)]
