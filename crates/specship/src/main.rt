// Writes the shipping form of a specification of kind 1, 2 or 3. The stored run has a source of each kind with every declaration and item, ones that the shipping form leaves nothing of, and ones that are refused.
#![tactic(auto)]

fn main(rt: HostRuntime) {
    mailing::ship_files(&rt);
}
