// Records, as `depot` writes them, from standard input, printed for a person.
#![tactic(auto)]

use std::io;

fn main(rt: HostRuntime) -> io::Result<()> {
    let mut source = rt.stdin();
    let mut sink = rt.stdout();
    showing::show_from(&mut source, &mut sink, u64::MAX)
}
