// Check 25: what is read.
ghost use Rattle.std.specs.Prelude.{◌≡◌, true};
ghost use Rattle.lists.specs.Tests.{every};
ghost use Rattle.area.specs.Slots.{Size};
ghost use Rattle.host.specs.Order.{place_in_order};
ghost use Rattle.machine_rules.specs.Roots.{kept_root};
ghost use Rattle.machine_rules.specs.Plan.{contract_source, sector_source, source_of};
ghost use Rattle.machine_plan.specs.Source.{Sources, sighted};

use host::Progress;
use machine_rules::Setting;
use machine_sight::Seen;
use sia::Op;

// Read: the parent as it is now, another contract as committed; nothing where there is no such contract.
fn contract_source(setting: &Setting, p: Progress, key: [u8; 32]) -> Option<Seen>
    requires size { Size setting.now.sector }
    requires places_value { every (place_in_order setting.now.sector) setting.now.places ≡ true }
    ensures { sighted result ≡ contract_source setting.now p key }
{
    let z = setting.sector;
    let other = host::place_of(setting.places, key);
    if !other.held {
        return None;
    }
    if sia::same_id(key, setting.terms.head.contract) {
        return Some(machine_sight::parent_seen(z, other, p.staged, p.size));
    }
    Some(machine_sight::committed_seen(z, other))
}

// ReadSector: the sector that has that root, of the parent as it is now, or else of another contract.
fn sector_source<'a>(
    setting: &Setting,
    diskroots: &'a [u8],
    stageroots: &'a [u8],
    p: Progress,
    key: [u8; 32],
) -> Option<Seen>
    requires { Sources setting.now diskroots.now stageroots.now p }
    ensures { sighted result ≡ sector_source setting.now (kept_root diskroots.now stageroots.now) p key }
{
    let seat = machine_sight::find_for(
        setting.sector,
        diskroots,
        stageroots,
        setting.places,
        setting.terms.head.contract,
        p.staged,
        p.size,
        key,
    )?;
    Some(machine_sight::one(seat.spot))
}

// What an instruction reads, if it is found.
pub fn source_of<'a>(
    setting: &Setting,
    diskroots: &'a [u8],
    stageroots: &'a [u8],
    p: Progress,
    op: Op,
    key: [u8; 32],
) -> Option<Seen>
    requires { Sources setting.now diskroots.now stageroots.now p }
    ensures { sighted result ≡ source_of setting.now (kept_root diskroots.now stageroots.now) p op key }
{
    match op {
        Op::Read => contract_source(setting, p, key),
        Op::ReadSector => sector_source(setting, diskroots, stageroots, p, key),
        Op::Write | Op::Copy | Op::Swap | Op::Truncate | Op::Unknown => {
            Some(machine_sight::nothing())
        }
    }
}
