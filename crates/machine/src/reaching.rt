// What a program has reached.
ghost use Rattle.std.specs.Prelude.{◌≡◌, true, []};
ghost use Rattle.host.specs.Order.{in_order};
ghost use Rattle.machine_rules.specs.Calls as Says;
ghost use Rattle.machine_rules.specs.Calls.{reached_pair};
ghost use Rattle.machine.specs.Asks.{reached_of};

use crate::refusing;
use host::{Host, Refusal};
use machine_rules::Pair;

// The pair that an agreement would name; after a failure the starting pair. Both come from the roots that are kept: no area is looked at.
fn reach(host: Host) -> Pair
    requires host_value { in_order host ≡ true }
    requires active_value { host.program.active ≡ true }
    ensures { result ≡ reached_pair [] host [] }
{
    if host.program.progress.failed {
        return machine_step::starting_pair(host);
    }
    machine_step::running_pair(host)
}

// The size and root that the program has reached; or 1, 2, 4. It changes nothing.
pub fn reached(host: Host, disk: &[u8], stage: &[u8]) -> Result<Pair, Refusal>
    ensures { reached_of result ≡ Says.reached disk.now host stage.now }
{
    let lent = host_order::areas_right(host.sector, host.disk, host.stage, disk, stage);
    let ordered = host_order::in_order(host);
    refusing::refusal(ordered, lent, host.program.active)?;
    Ok(reach(host))
}
