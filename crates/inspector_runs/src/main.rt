// The screens of files of chosen lengths, read and shown as the inspector does it: no byte, one, as many as are inspected, one more, many more, and one in
// which every byte stands.
#![tactic(auto)]

use shown::show_from;
use std::fs::File;
use std::io;
use std::rt::Files;

fn run(rt: &(impl Files + Print + Eprint), name: &str) -> io::Result<()> {
    rt.println(name)?;
    match File::open(rt, name) {
        Ok(mut file) => show_from(rt, &mut file),
        Err(e) => rt.eprintln(format_args!("{name}: {e}"))?,
    }
    Ok(())
}

fn main(rt: HostRuntime) -> io::Result<()> {
    run(&rt, "empty")?;
    run(&rt, "one")?;
    run(&rt, "most")?;
    run(&rt, "over")?;
    run(&rt, "long")?;
    run(&rt, "binary")
}
