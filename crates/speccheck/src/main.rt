// Says what is wrong in each specification that its arguments name, and what nothing uses. The stored run has a clean file, warnings and faults; a source for each cause that stops the
// reading; each thing that may not be repeated, with CR LF line ends, and a repeat before the reading stops; files that are empty, too long, missing or not UTF-8, and as full of tokens, keys or productions as can be; standard
// input; lines too long to be shown; and each option.
#![tactic(auto)]

fn main(rt: HostRuntime) {
    checking::check_files(&rt);
}
