// Checks 26 to 42, in order, of an instruction whose inputs are told and whose sectors are found.
ghost use Rattle.std.specs.Prelude.{◌≡◌, true, ◌+◌, ◌*◌, ◌≤◌, leb};
ghost use Rattle.machine_rules.specs.Facts.{Lent};
ghost use Rattle.host.specs.Places.{others};
ghost use Rattle.machine_rules.specs.Plan.{bad_proof, new_size};
ghost use Rattle.lists.specs.Pick.{both};
ghost use Rattle.machine_rules.specs.Failure.{plan_given};
ghost use Rattle.machine_sight.specs.Seen.{Ranged};
ghost use Rattle.machine_rules.specs.Plan as Says;

use crate::charge::cost;
use crate::room::{new_size, output_count, proof_count, too_few};
use crate::spans::{bad_proof, bad_spans};
use crate::sums::record_above;
use host::Progress;
use machine_inputs::above;
use machine_rules::{Args, Failure, Plan, Setting};
use sia::Op;

// 27: whether a proof is asked that cannot be made.
fn asked_badly(asked: bool, op: Op, args: Args) -> bool
    ensures { result ≡ both asked (bad_proof op args) }
{
    asked && bad_proof(op, args)
}

// 40 to 42 of an instruction that costs so much; `fits` says whether its new size fits the disk beside the other contracts. Where it can run, its
// cost, the new size, its hashes and the record's length.
fn fitted(
    setting: &Setting,
    p: Progress,
    asked: bool,
    op: Op,
    args: Args,
    seen: u64,
    cost: u64,
    fits: bool,
) -> Result<Plan, Failure>
    requires lent { Lent setting.now }
    requires seen_bound { seen ≤ 64 }
    requires room_bound { setting.now.terms.room ≤ 65536 }
    requires ranged { asked ≡ true → Ranged setting.now.sector seen args.first args.len }
    requires fits_value { fits ≡ leb (new_size p.size op args + others setting.now.terms.head.contract setting.now.places) (setting.now.disksectors * setting.now.sector) }
    ensures { plan_given result ≡ Says.fitted setting.now p asked seen op args cost }
{
    let z = setting.sector;
    if too_few(z, setting.stagesectors, p, op, args) {
        return Err(Failure::NoStageSlot);
    }
    if !fits {
        return Err(Failure::NoDisk);
    }
    let size = new_size(p.size, op, args);
    let hashes = proof_count(z, asked, seen, args);
    let output = output_count(op, args);
    if record_above(setting.terms.room, p.written, hashes, output) {
        return Err(Failure::NoOutput);
    }
    let count = 72 + 32 * hashes + output;
    Ok(Plan {
        cost,
        size,
        hashes,
        count,
    })
}

// 26 to 42. `seen` is the number of the sectors that are read.
pub fn weighed(
    setting: &Setting,
    p: Progress,
    asked: bool,
    op: Op,
    args: Args,
    seen: u64,
) -> Result<Plan, Failure>
    requires lent { Lent setting.now }
    requires seen_bound { seen ≤ 64 }
    requires length_bound { setting.now.terms.head.length ≤ 65536 }
    requires room_bound { setting.now.terms.room ≤ 65536 }
    ensures { plan_given result ≡ Says.weighed setting.now p asked seen op args }
{
    if bad_spans(setting.sector, p.size, seen, op, args) {
        return Err(Failure::BadSpan);
    }
    if asked_badly(asked, op, args) {
        return Err(Failure::BadProof);
    }
    let terms = setting.terms;
    let cost = cost(terms.head.length, terms.prices, op, args.len);
    if above(terms.budget, p.tally, cost) {
        return Err(Failure::OverBudget);
    }
    let size = new_size(p.size, op, args);
    let limit = setting.disksectors * setting.sector;
    let fits = host::sizes_fit(setting.places, terms.head.contract, size, limit);
    fitted(setting, p, asked, op, args, seen, cost, fits)
}
