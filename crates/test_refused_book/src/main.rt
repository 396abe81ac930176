// The program on a book that is refused, with a list of events: "A refused book prints "book refused" and the number, and nothing more."
#![tactic(auto)]

fn main(rt: HostRuntime) {
    rakhvide_console::print_page(&rt);
}
