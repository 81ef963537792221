// The setting of a host's open program, and its parent: the one way to each.
ghost use Rattle.std.specs.Prelude.{◌≡◌};
ghost use Rattle.machine_rules.specs.View as Says;

use host::{Host, Place};
use machine_rules::Setting;

// What stays while the program's instructions run.
pub fn setting_of(host: Host) -> Setting
    ensures { result ≡ Says.setting_of host }
{
    let program = host.program;
    let places = host.places;
    let terms = program.terms;
    Setting {
        sector: host.sector,
        disksectors: host.disk,
        stagesectors: host.stage,
        places,
        terms,
    }
}

// The contract that the program's head names; none in read-only mode.
pub fn parent(setting: Setting) -> Place
    ensures { result ≡ Says.parent setting }
{
    let terms = setting.terms;
    let head = terms.head;
    let id = head.contract;
    let places = setting.places;
    host::place_of(places, id)
}
