// The program on a list after which bonds are still open. Two copies of one bond run: its first RESULT lowers the number of open jobs, the second does
// not.
#![tactic(auto)]

fn main(rt: HostRuntime) {
    rakhvide_console::print_page(&rt);
}
