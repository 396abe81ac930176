// The program. Its data are those of the listing in document 01, "Examples", and its stored output is the one printed there.
#![tactic(auto)]

fn main(rt: HostRuntime) {
    rakhvide_console::print_page(&rt);
}
