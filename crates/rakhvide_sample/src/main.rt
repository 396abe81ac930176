// The program on a sample close: tools/make_sample.py writes its data and, from documents 01 and 02, what it must print.
#![tactic(auto)]

fn main(rt: HostRuntime) {
    rakhvide_console::print_page(&rt);
}
