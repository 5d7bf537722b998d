// The inspector: reads one raw script from standard input and writes its screen to standard output.
#![tactic(auto)]

use shown::show_from;

fn main(rt: HostRuntime) {
    show_from(&rt, &mut rt.stdin());
}
