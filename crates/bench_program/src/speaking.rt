// What is written out once a whole input was played.
ghost use Rattle.std.specs.Prelude.{◌≡◌, ◌≤◌, length, take};
ghost use Rattle.bench_program.specs.Single.{spoken};
ghost use Rattle.bench_program.specs.Input.{answered};

// Plays an input on a host with sectors of that size. What is to be written out, the records or a refusal's number, stands then at the front
// of the output area: so many bytes.
pub fn play(
    sector: u64,
    all: &[u8],
    disk: &mut [u8],
    stage: &mut [u8],
    input: &mut [u8],
    output: &mut [u8],
) -> usize
    requires { 8 ≤ length output.old }
    ensures { take result output.new ≡
        spoken (answered sector all.now disk.old stage.old input.old output.old) }
{
    let done = crate::answer(sector, all, disk, stage, input, output);
    if let Some(why) = done.refused {
        area::store(output, 0, 8, why.number());
        return 8;
    }
    crate::playing::least(done.written, output.len())
}
