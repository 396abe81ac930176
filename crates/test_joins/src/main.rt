// The program on a list in which machines join until there are sixteen, and joins are refused by 10, 26 and 27. Two of those that joined price a bond,
// and one dies with a bond in hand.
#![tactic(auto)]

fn main(rt: HostRuntime) {
    rakhvide_console::print_page(&rt);
}
