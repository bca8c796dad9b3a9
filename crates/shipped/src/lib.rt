// What the shipping form is and that it reads again: this crate holds theorems about the pass of `shipper`; it has no code.
#![tactic(auto)]
