// One instruction with its record, and instructions in turn: its plan, then its failure, or its effect, the roots of what it wrote and its record;
// whether a program goes on; and the pairs that it started from and has reached.
// Rests on `machine_plan` (whether and at what cost), `machine_effect` (what it does) and `machine_sight` (roots and proofs). Inner functions: what
// they require, their callers prove.
#![tactic(auto)]

ghost use Rattle.std.specs.Prelude.{◌≡◌};
ghost use Rattle.machine_rules.specs.Run as Says;

mod pairs; // pairs.rt: the starting pair and the running pair
mod records; // records.rt: the bytes that an instruction leaves in the output area
mod roots; // roots.rt: the roots of the parent, and failures
mod running; // running.rt: an instruction that can run
mod settings; // settings.rt: the setting of an open program, and its parent
mod taking; // taking.rt: checks, then failure or success
mod turns; // turns.rt: instructions in turn

use host::Program;
pub use pairs::{running_pair, starting_pair};
pub use roots::fail;
pub use settings::{parent, setting_of};
pub use turns::run;

// Whether a program has neither ended nor failed.
pub fn going(program: Program) -> bool
    ensures { result ≡ Says.going program.terms program.progress }
{
    let progress = program.progress;
    let terms = program.terms;
    let head = terms.head;
    turns::goes_on(head.count, progress)
}
