// Shows digests, one a line, and RFC 7693's own self-test. Standard input holds 66 bytes for keys, 1,000 bytes for messages, and then
// items of three numbers of 8 bytes: how long the digest, the key and the message are. Keys and messages are front parts.
#![tactic(auto)]

mod self_test;

use std::io;
use std::io::Write;
use stdout::hex;

fn main(rt: HostRuntime) -> io::Result<()> {
    let mut source = rt.stdin();
    let mut sink = rt.stdout();
    let verdict = if self_test::passes() {
        "passed"
    } else {
        "FAILED"
    };
    writeln!(sink, "RFC 7693 Appendix E self-test: {verdict}")?;
    let mut input = [0; 65536];
    let n = stdin::full(&mut source, &mut input)?;
    show_all(&mut sink, &input[..n])
}

// Each item of the input; bytes behind the last whole one are left.
fn show_all(sink: &mut impl Write, input: &[u8]) -> io::Result<()> {
    if input.len() < 1066 {
        return writeln!(sink, "no keys and messages");
    }
    for item in input[1066..].chunks_exact(24) {
        let nn = area::load(item, 0);
        let kk = area::load(item, 8);
        let ll = area::load(item, 16);
        show(sink, &input[..66], &input[66..1066], nn, kk, ll)?;
    }
    Ok(())
}

// One line: the three lengths, and the digest or the refusal.
fn show(
    sink: &mut impl Write,
    keys: &[u8],
    messages: &[u8],
    nn: u64,
    kk: u64,
    ll: u64,
) -> io::Result<()> {
    write!(sink, "digest {nn}, key {kk}, message {ll}: ")?;
    if nn > 66 || kk > keys.len() as u64 || ll > messages.len() as u64 {
        return writeln!(sink, "not in the input");
    }
    let mut space = [0; 66];
    let out = &mut space[..nn as usize];
    match blake2b::digest(&keys[..kk as usize], &messages[..ll as usize], out) {
        Ok(()) => hex(sink, out)?,
        Err(_) => write!(sink, "refused, 2")?,
    }
    writeln!(sink)
}
