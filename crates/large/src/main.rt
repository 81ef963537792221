// The program of the bench on sectors of 1 MiB: disk 2 sectors, stage 2, output 65,536. These are the largest sectors of which two areas of two
// stand on the stack that a program has by default, 8 MB. It reads one input, plays it, and writes the records, or a refusal's number in 8
// bytes.
#![tactic(auto)]

use std::io;

fn main(rt: HostRuntime) -> io::Result<()> {
    let mut source = rt.stdin();
    let mut sink = rt.stdout();
    bench_input::answer::<2_097_152, 2_097_152, 65_536>(&mut source, &mut sink, 1_048_576)
}
