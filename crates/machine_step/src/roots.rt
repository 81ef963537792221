// The roots of the parent: as committed, and as it is read now. And the record of a failure, which shows the first.
ghost use Rattle.std.specs.Prelude.{◌≡◌, [], ◌+◌, ◌/◌, ◌≤◌, length};
ghost use Rattle.lists.specs.Tab.{tab};
ghost use Rattle.area.specs.Area.{put};
ghost use Rattle.machine_rules.specs.View.{volume, parent, spot_of, committed_spots};
ghost use Rattle.machine_rules.specs.Roots.{kept_root, contract_root};
ghost use Rattle.machine_rules.specs.Record.{failure_bytes};
ghost use Rattle.machine_rules.specs.Run.{failed_progress};
ghost use Rattle.machine_sight.specs.Lookup.{Stands};
ghost use Rattle.machine_step.specs.Asks.{Reads};

use crate::{records, settings};
use host::{Place, Progress};
use machine_rules::Setting;

// The root of a contract's committed sectors, from the roots kept beside them; zeros where there is none.
pub fn committed_root(z: u64, diskroots: &[u8], parent: Place) -> [u8; 32]
    requires { Stands z diskroots.now parent }
    ensures { result ≡ contract_root (kept_root diskroots.now []) (committed_spots z parent) }
{
    let seen = machine_sight::committed_seen(z, parent);
    machine_sight::contract_root(diskroots, b"", seen)
}

// The root of the parent as it is read now.
pub fn running_root<'a>(
    z: u64,
    diskroots: &'a [u8],
    stageroots: &'a [u8],
    parent: Place,
    progress: Progress,
) -> [u8; 32]
    requires { Reads z diskroots.now stageroots.now parent progress }
    ensures { result ≡ contract_root (kept_root diskroots.now stageroots.now)
        (tab 0 (progress.size / z) (spot_of parent.slots progress.staged)) }
{
    let staged = progress.staged;
    let seen = machine_sight::parent_seen(z, parent, staged, progress.size);
    machine_sight::contract_root(diskroots, stageroots, seen)
}

// A failure: it ends the program, and otherwise only writes its record.
// Kept: its number is any, as a caller may give any: `Failure` in its place would ask more of callers.
pub fn fail(
    setting: Setting,
    number: u64,
    diskroots: &[u8],
    progress: Progress,
    output: &mut [u8],
) -> Progress
    requires stands { Stands setting.sector diskroots.now (parent setting) }
    requires written_in_bounds { progress.written + 72 ≤ length output.old }
    ensures { (result ≡ failed_progress progress) × (output.new ≡
        put output.old progress.written (failure_bytes setting (volume [] diskroots.now) number)) }
{
    let parent = settings::parent(setting);
    let root = committed_root(setting.sector, diskroots, parent);
    let at = progress.written as usize;
    records::put_failure(number, parent.size, root, &mut output[at..]);
    let mut after = progress;
    after.written = progress.written + 72;
    after.failed = true;
    after
}
