// The program where there is no file: "A file that cannot be opened counts as empty".
#![tactic(auto)]

fn main(rt: HostRuntime) {
    rakhvide_console::print_page(&rt);
}
