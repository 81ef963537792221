// One program from a fresh host to its close: contracts are formed, a head is opened, the data is given as one piece, and the pair
// reached is agreed to, or given up after a failure. The first refusal ends it. Rests on `machine` alone.
#![tactic(auto)]

ghost use Rattle.std.specs.Prelude.{◌≡◌};
ghost use Rattle.host.specs.Refusals.{number_in};
ghost use Rattle.bench_program.specs.Single as Says;
ghost use Rattle.bench_program.specs.Single.{leaves};
ghost use Rattle.bench_program.specs.Input.{answered};

mod contracts; // contracts.rt: contracts formed in turn
mod playing; // playing.rt: opening, the piece and the close
mod reading; // reading.rt: the whole input in its bytes
mod speaking; // speaking.rt: what is written out

use machine::{Host, Prices, Refusal};
pub use playing::{begin, least};
pub use speaking::play;

// Kept: `Clone` and `Copy` alone: nothing compares or prints it.

// What a run comes to: the refusal that ended it, if one did, how many bytes of the output area are records to be written out, and the host.
#[derive(Clone, Copy)]
pub struct Outcome {
    pub refused: Option<Refusal>,
    pub written: u64,
    pub host: Host,
}

impl Outcome {
    // The bytes of the price count, prices, budget and contract count, ahead of the ids.
    pub const FRONT: usize = 80;

    // Document 01's number: 0 where no refusal ended it.
    pub fn number(self) -> u64
        ensures { result ≡ number_in self.refused }
    {
        match self.refused {
            None => 0,
            Some(why) => why.number(),
        }
    }
}

// Plays one program on a fresh host with sectors of that size for the areas that are lent: 2 for the size and their lengths; 5, 15, 6, 8 of the first
// id that is refused; opening's 2,
// 9, 10, 7, 11; the piece's 2, 12; closing's 13. The ids stand one behind another, 32 bytes each.
pub fn run(
    sector: u64,
    prices: Prices,
    budget: u64,
    ids: &[u8],
    head: &[u8],
    bytes: &[u8],
    disk: &mut [u8],
    stage: &mut [u8],
    input: &mut [u8],
    output: &mut [u8],
) -> Outcome
    ensures { leaves result disk.new stage.new input.new output.new ≡
        Says.run sector prices budget ids.now head.now bytes.now disk.old stage.old
        input.old output.old }
{
    let mut host = match machine::fresh(sector, disk.len() as u64, stage.len() as u64) {
        Ok(empty) => empty,
        Err(why) => return playing::refused(why, machine::unmade()),
    };
    match contracts::form_in_turn(&mut host, ids) {
        Ok(()) => playing::begin(
            host, prices, budget, head, bytes, disk, stage, input, output,
        ),
        Err(why) => playing::refused(why, host),
    }
}

// Plays what the whole input asks for: 9 if bytes ahead of the data are missing, the price count is not 7 or a price passes 65,535.
pub fn answer(
    sector: u64,
    all: &[u8],
    disk: &mut [u8],
    stage: &mut [u8],
    input: &mut [u8],
    output: &mut [u8],
) -> Outcome
    ensures { leaves result disk.new stage.new input.new output.new ≡
        answered sector all.now disk.old stage.old input.old output.old }
{
    if reading::wrong(all) {
        let fresh = machine::fresh(sector, disk.len() as u64, stage.len() as u64);
        return playing::refused(Refusal::Malformed, fresh.unwrap_or(machine::unmade()));
    }
    let prices = reading::prices(all);
    let budget = area::load(all, 64);
    let ids = reading::ids_end(all);
    let from = ids + 8;
    let end = reading::head_end(all);
    run(
        sector,
        prices,
        budget,
        &all[80..ids],
        &all[from..end],
        &all[end..],
        disk,
        stage,
        input,
        output,
    )
}
