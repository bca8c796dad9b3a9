// Small inputs of whole reads and loads, each table under one computed statement: this crate has no code, so that no edit of the code below computes them again.
#![tactic(auto)]
