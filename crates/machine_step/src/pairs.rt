// The two pairs of an open program: the size and root of its parent as committed, and as it is read now, from the roots that are kept.
ghost use Rattle.std.specs.Prelude.{◌≡◌, true, []};
ghost use Rattle.host.specs.Order.{in_order};
ghost use Rattle.machine_rules.specs.View.{setting_of, volume_of};
ghost use Rattle.machine_rules.specs.Roots.{kept_root};
ghost use Rattle.machine_rules.specs.Record as Says;

use crate::{roots, settings};
use host::Host;
use machine_rules::Pair;

// What the program started from; 0 and zeros in read-only mode.
pub fn starting_pair(host: Host) -> Pair
    requires { in_order host ≡ true }
    ensures { result ≡ Says.starting_pair (setting_of host) (volume_of host []) }
{
    let parent = settings::parent(settings::setting_of(host));
    let diskroots = host.diskroots;
    let root = roots::committed_root(host.sector, &diskroots, parent);
    Pair {
        size: parent.size,
        root,
    }
}

// What it has reached.
pub fn running_pair(host: Host) -> Pair
    requires host_value { in_order host ≡ true }
    requires active_value { host.program.active ≡ true }
    ensures { result ≡ Says.running_pair (setting_of host) (kept_root host.diskroots host.stageroots) host.program.progress }
{
    let program = host.program;
    let progress = program.progress;
    let parent = settings::parent(settings::setting_of(host));
    let diskroots = host.diskroots;
    let stageroots = host.stageroots;
    let root = roots::running_root(host.sector, &diskroots, &stageroots, parent, progress);
    Pair {
        size: progress.size,
        root,
    }
}
