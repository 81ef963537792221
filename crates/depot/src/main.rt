// The program of the bench: sectors of 4,096 bytes, disk 8 sectors, stage 4, output 16,384. It reads one input, plays it, and writes the
// records, or a refusal's number in 8 bytes.
#![tactic(auto)]

use host::Host;
use std::io;

fn main(rt: HostRuntime) -> io::Result<()> {
    let mut source = rt.stdin();
    let mut sink = rt.stdout();
    bench_input::answer::<32_768, 16_384, 16_384>(&mut source, &mut sink, Host::LEAST)
}
