// What a refused read tells: this crate holds definitions and theorems about whole reads; it has no code.
#![tactic(auto)]
