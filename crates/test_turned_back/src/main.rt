// The program on steals that are turned back: "14 now means only that thief and victim are the same. [..] 24, thief already waits, after 14; 25,
// thief was told the victim is dead, after 24."
#![tactic(auto)]

fn main(rt: HostRuntime) {
    rakhvide_console::print_page(&rt);
}
