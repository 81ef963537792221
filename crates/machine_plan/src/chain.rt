// Checks 21 to 42, in order, of one instruction, and its plan.
ghost use Rattle.std.specs.Prelude.{◌≡◌, length};
ghost use Rattle.lists.specs.Pick.{both};
ghost use Rattle.area.specs.Area.{same};
ghost use Rattle.machine_rules.specs.Roots.{kept_root};
ghost use Rattle.machine_rules.specs.Kinds.{changes};
ghost use Rattle.machine_rules.specs.Facts.{Good};
ghost use Rattle.sia.specs.Names.{read_only, op_of};
ghost use Rattle.machine_plan.specs.Planned.{Plans, said_of, argued, plan_of};

use crate::Task;
use crate::judge::weighed;
use crate::lookup::source_of;
use host::Progress;
use machine_inputs::{Given, decoded, ill_formed, kind, past_end};
use machine_rules::{Failure, Setting};
use sia::{Instruction, Op};

// 24: whether an instruction would change a contract in read-only mode.
fn changes_nothing(op: Op, id: [u8; 32]) -> bool
    ensures { result ≡ both (changes op) (same id read_only) }
{
    kind(op).changes && sia::is_read_only(id)
}

// 24 to 42, of arguments that are told.
fn argued<'a>(
    setting: &Setting,
    p: Progress,
    asked: bool,
    op: Op,
    given: Given,
    diskroots: &'a [u8],
    stageroots: &'a [u8],
) -> Result<Task, Failure>
    requires plans { Plans setting.now p diskroots.now stageroots.now }
    requires good { Good setting.now p }
    ensures { said_of op result ≡ argued setting.now (kept_root diskroots.now stageroots.now) p
        asked op given.args given.from }
{
    if changes_nothing(op, setting.terms.head.contract) {
        return Err(Failure::ReadOnly);
    }
    let args = given.args;
    let Some(seen) = source_of(setting, diskroots, stageroots, p, op, args.key) else {
        return Err(Failure::NotFound);
    };
    let plan = weighed(setting, p, asked, op, args, seen.count as u64)?;
    Ok(Task {
        plan,
        op,
        args,
        from: given.from,
        seen,
    })
}

// Whether an instruction can run, and what it costs and changes then. `input` is the input area, of the declared length.
pub fn planned<'a>(
    setting: Setting,
    p: Progress,
    i: Instruction,
    diskroots: &'a [u8],
    stageroots: &'a [u8],
    input: &[u8],
) -> Result<Task, Failure>
    requires plans { Plans setting p diskroots.now stageroots.now }
    requires good { Good setting p }
    requires input_len { length input.now ≡ setting.terms.head.length }
    ensures { said_of (op_of i.name) result ≡
        plan_of setting (kept_root diskroots.now stageroots.now) p i input.now }
{
    let op = sia::op_of(i.name);
    if ill_formed(i) {
        return Err(Failure::IllFormed);
    }
    if past_end(setting.terms.head.length, i) {
        return Err(Failure::PastEnd);
    }
    let Some(given) = decoded(op, i, input) else {
        return Err(Failure::Malformed);
    };
    argued(&setting, p, i.proof, op, given, diskroots, stageroots)
}
