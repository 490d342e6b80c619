// The definition held to the running Rust: tests/definition writes the cases.

#![tactic(auto)]
