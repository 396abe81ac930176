// The program on a full channel: "A message to a dead machine takes no place, yet a steal is refused when 128 are in flight even where its victim is
// dead and the thief has not been told. The first line now goes first".
#![tactic(auto)]

fn main(rt: HostRuntime) {
    rakhvide_console::print_page(&rt);
}
