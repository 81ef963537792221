// Closing a program: giving up, or agreeing to the size and root that it has reached, which a program that changed nothing need not name;
// and the commit.
ghost use Rattle.std.specs.Prelude.{◌≡◌, Ok, pos};
ghost use Rattle.host.specs.Empty.{no_program};
ghost use Rattle.host.specs.With.{with_program};
ghost use Rattle.machine_rules.specs.Record.{same_pair};
ghost use Rattle.machine_rules.specs.Commit as Says;
ghost use Rattle.machine_step.specs.Turns.{Ready};
ghost use Rattle.machine.specs.Closes.{close_leaves};

use crate::{Closing, End, commit, refusing};
use host::{Host, Program, Refusal};
use machine_rules::Pair;

// The program is closed and nothing committed.
fn give_up(end: End, host: Host) -> Closing
    ensures { result ≡ record { end = end; tally = host.program.progress.tally; growth = pos 0; host = with_program host no_program } }
{
    let program = Program::none();
    Closing {
        end,
        tally: host.program.progress.tally,
        growth: 0,
        host: Host { program, ..host },
    }
}

// 13: whether a program has failed, or has not ended.
fn unfinished(program: Program) -> bool
    ensures { result ≡ Says.unfinished program }
{
    let progress = program.progress;
    if progress.failed {
        return true;
    }
    machine_step::going(program)
}

// Whether two pairs are the same: the sizes, and all bytes of the roots.
fn same_pair(one: Pair, two: Pair) -> bool
    ensures { result ≡ same_pair one two }
{
    if one.size != two.size {
        return false;
    }
    let root = one.root;
    let other = two.root;
    area::same(&root, &other)
}

// Staged sectors go to the parent's slots on the disk, each with the root kept beside it, and the parent takes its final size.
fn commit(host: Host, disk: &mut [u8], stage: &[u8]) -> Closing
    requires { Ready disk.old host stage.now }
    ensures { close_leaves host (Ok result) disk.new ≡ Says.commit disk.old host stage.now }
{
    let program = host.program;
    let terms = program.terms;
    let head = terms.head;
    let id = head.contract;
    let places = host.places;
    let progress = program.progress;
    let size = progress.size;
    let staged = progress.staged;
    let setting = machine_step::setting_of(host);
    let old = machine_step::parent(setting);
    let z = host.sector;
    let slots = commit::final_slots(z, host.disk, places, old, size);
    let new = commit::final_place(old, size, slots);
    let after_places = host::replaced_in(places, id, new);
    let growth = commit::growth(size, old.size);
    let count = (size / z) as usize;
    commit::copy_back(z, stage, staged, slots, count, disk);
    let stageroots = host.stageroots;
    let mut diskroots = host.diskroots;
    commit::copy_back(32, &stageroots, staged, slots, count, &mut diskroots);
    let mut after = host;
    after.places = after_places;
    after.diskroots = diskroots;
    let none = Program::none();
    after.program = none;
    Closing {
        end: End::Closed,
        tally: progress.tally,
        growth,
        host: after,
    }
}

// An agreement. Where nothing changed there is nothing to agree, and nothing to commit; else 14 drops the changes, and closes.
fn agree_to(host: Host, disk: &mut [u8], stage: &[u8], named: Pair) -> Closing
    requires { Ready disk.old host stage.now }
    ensures { close_leaves host (Ok result) disk.new ≡ Says.agreed disk.old host stage.now named }
{
    let starting = machine_step::starting_pair(host);
    let running = machine_step::running_pair(host);
    if same_pair(running, starting) {
        return give_up(End::Closed, host);
    }
    if !same_pair(named, running) {
        return give_up(End::Disagreed, host);
    }
    commit(host, disk, stage)
}

// Closes the program; or 1, 2, 4, 13. Giving up always closes and commits nothing; so does an agreement to a program that changed nothing, and,
// as 14, an agreement to another pair than the running one.
pub fn close(
    host: Host,
    disk: &mut [u8],
    stage: &[u8],
    agree: bool,
    size: u64,
    root: [u8; 32],
) -> Result<Closing, Refusal>
    ensures { close_leaves host result disk.new ≡ Says.close disk.old host stage.now agree size root }
{
    let lent = host_order::areas_right(host.sector, host.disk, host.stage, &*disk, stage);
    let program = host.program;
    let ordered = host_order::in_order(host);
    refusing::refusal(ordered, lent, program.active)?;
    if !agree {
        return Ok(give_up(End::Closed, host));
    }
    if unfinished(program) {
        return Err(Refusal::Unfinished);
    }
    let named = Pair { size, root };
    Ok(agree_to(host, disk, stage, named))
}
