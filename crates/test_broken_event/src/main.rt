// The program on a list whose last event has two bytes: "Refused events stay in the list, those of too few bytes included."
#![tactic(auto)]

fn main(rt: HostRuntime) {
    rakhvide_console::print_page(&rt);
}
