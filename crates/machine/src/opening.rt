// Opening a program. What it answers and leaves is the definition `opened` of `machine_rules`.
ghost use Rattle.std.specs.Prelude.{◌≡◌, not};
ghost use Rattle.lists.specs.Pick.{both};
ghost use Rattle.area.specs.Area.{same};
ghost use Rattle.sia.specs.Names.{read_only};
ghost use Rattle.sia_read.specs.Faults as Faults;
ghost use Rattle.host.specs.Refusals.{number_of};
ghost use Rattle.host.specs.Empty as Empty;
ghost use Rattle.host.specs.Places.{whose};
ghost use Rattle.machine_rules.specs.Calls.{room_right, opened};
ghost use Rattle.machine.specs.Asks.{answer_of};

use crate::Done;
use host::{Host, Place, Prices, Program, Progress, Refusal, Terms};
use sia_read::Fault;

fn room_right(room: u64) -> bool
    ensures { result ≡ room_right room }
{
    if room < Terms::LEAST {
        return false;
    }
    room <= Terms::MOST
}

// Whether the head names a contract that is not there.
fn absent(places: [Place; 8], id: [u8; 32]) -> bool
    ensures { result ≡ both (not (same id read_only)) (not (whose id places).held) }
{
    if sia::is_read_only(id) {
        return false;
    }
    let parent = host::place_of(places, id);
    !parent.held
}

// The progress of a program that has run nothing.
fn started(tally: u64, size: u64) -> Progress
    ensures { result ≡ Empty.started tally size }
{
    let staged = [255u8; 64];
    Progress {
        ran: 0,
        tally,
        written: 0,
        size,
        failed: false,
        staged,
    }
}

// Why bytes that are no head refuse an opening.
fn unread(fault: Fault) -> Refusal
    ensures { number_of result ≡ Faults.number_of fault }
{
    match fault {
        Fault::Malformed => Refusal::Malformed,
        Fault::AboveLimit => Refusal::AboveLimit,
    }
}

// Opens a program under a head in its bytes, and tallies the start price; or 1, 2, 3, 9 and 10 in reading order, 7, 11.
pub fn open(
    host: Host,
    bytes: &[u8],
    budget: u64,
    prices: Prices,
    room: u64,
) -> Result<Done, Refusal>
    ensures { answer_of host result ≡ opened host bytes.now budget prices room }
{
    if !host_order::in_order(host) {
        return Err(Refusal::NotInOrder);
    }
    if !room_right(room) {
        return Err(Refusal::WrongLength);
    }
    if host.program.active {
        return Err(Refusal::Open);
    }
    let head = match sia_read::read_head(bytes) {
        Ok(head) => head,
        Err(fault) => return Err(unread(fault)),
    };
    if absent(host.places, head.contract) {
        return Err(Refusal::NotFound);
    }
    let tally = u64::from(prices.init);
    if budget < tally {
        return Err(Refusal::AboveBudget);
    }
    let parent = host::place_of(host.places, head.contract);
    let program = Program {
        active: true,
        terms: Terms {
            head,
            prices,
            budget,
            room,
        },
        came: 0,
        progress: started(tally, parent.size),
    };
    Ok(Done {
        tally,
        host: Host { program, ..host },
    })
}
