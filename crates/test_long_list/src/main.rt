// The program on a list of more than 60,000 bytes: "later ones are not read".
#![tactic(auto)]

fn main(rt: HostRuntime) {
    rakhvide_console::print_page(&rt);
}
