// Whether an instruction can run, and what it costs and changes then: checks 21 to 42, cost and room. Numbers alone, but for ReadSector,
// which looks a root up among those that are kept.
// Rests on `machine_inputs` for what an instruction's inputs say and on `machine_sight` for what is seen. Inner functions: what they require,
// their callers prove.
#![tactic(auto)]

mod chain; // chain.rt: checks 21 to 42, and the plan of an instruction
mod charge; // charge.rt: what an instruction is charged
mod judge; // judge.rt: checks 26 to 42, in order
mod lookup; // lookup.rt: what is read, and check 25
mod room; // room.rt: what checks 40, 41 and 42 count
mod spans; // spans.rt: checks 26 and 27
mod sums; // sums.rt: sums against a limit

pub use chain::planned;
use machine_rules::{Args, Plan};
use machine_sight::Seen;
use sia::Op;

// Kept: `Clone` and `Copy` alone: nothing compares or prints it.

// The plan of an instruction that can run and what it starts from: its arguments, where Write's data begin in the input area, and what it reads.
#[derive(Clone, Copy)]
pub struct Task {
    pub plan: Plan,
    pub op: Op,
    pub args: Args,
    pub from: u64,
    pub seen: Seen,
}
