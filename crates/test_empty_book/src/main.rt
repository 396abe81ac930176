// The program on a book without entries: the last line, "open" and the number, is printed all the same.
#![tactic(auto)]

fn main(rt: HostRuntime) {
    rakhvide_console::print_page(&rt);
}
