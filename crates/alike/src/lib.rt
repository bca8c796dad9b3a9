// Two readings of two sources that are alike, places aside: this crate holds definitions and theorems; it has no code.
#![tactic(auto)]
