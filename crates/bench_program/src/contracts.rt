// Contracts formed in turn.
ghost use Rattle.std.specs.Prelude.{◌≡◌, ◌+◌, ◌≤◌, length};
ghost use Rattle.area.specs.Area.{part};
ghost use Rattle.host.specs.Refusals.{told};
ghost use Rattle.host.specs.Calls.{answered};
ghost use Rattle.bench_program.specs.Single.{ids_in, formed_in_turn};

use machine::{Host, Place, Refusal};

// The id that stands at a place.
fn id_at(ids: &[u8], at: usize) -> [u8; 32]
    requires { at + 32 ≤ length ids.now }
    ensures { result ≡ part ids.now at 32 }
{
    let mut id = [0u8; 32];
    area::copy_between(ids, at, &mut id, 0, Place::ID);
    id
}

// Forms the contracts of ids that stand one behind another on a host that is lent, up to the first refusal, which leaves the host as it was
// then.
pub fn form_in_turn(host: &mut Host, ids: &[u8]) -> Result<(), Refusal>
    ensures { answered (told result) host.new ≡ formed_in_turn host.old (ids_in ids.now) }
{
    for i in 0..ids.len() / Place::ID {
        let id = id_at(ids, i * Place::ID);
        match machine::form_in(host, id) {
            Ok(()) => {}
            Err(why) => return Err(why),
        }
    }
    Ok(())
}
