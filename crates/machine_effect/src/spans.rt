// Write, Copy and Swap: spans of the parent written over, in the copies that their sectors have in the stage.
// These are inner functions: what they require, their callers prove.
ghost use Rattle.std.specs.Prelude.{◌≡◌, length};
ghost use Rattle.machine_rules.specs.Effect.{span_written};
ghost use Rattle.machine_effect.specs.Parts.{told_ground, told_staging, span_copied, spans_swapped};
ghost use Rattle.machine_effect.specs.Asks.{Lent, From, Over, Two};

use crate::staging::{Ground, Staging, place};

// Bytes over the parent's from `at` on.
pub fn write(ground: &Ground, staging: &mut Staging, at: usize, bytes: &[u8])
    requires lent { Lent ground.now.sector (told_ground ground.now) (told_staging staging.old) }
    requires over { Over ground.now.sector (told_ground ground.now) (told_staging staging.old) at (length bytes.now) }
    ensures written { told_staging staging.new ≡
        span_written ground.now.sector (told_ground ground.now) at bytes.now (told_staging staging.old) }
    ensures same_bytes { staging.new.bytes.ghost_name ≡ staging.old.bytes.ghost_name }
{
    let z = ground.sector;
    staging.copy_in(ground, at / z);
    let there = place(z, staging.staged, at);
    area::copy_between(bytes, 0, staging.bytes, there, bytes.len());
}

// n bytes of the parent from `from` on, laid from `to` on as they were at the start.
pub fn copy(ground: &Ground, staging: &mut Staging, to: usize, from: usize, n: usize)
    requires lent { Lent ground.now.sector (told_ground ground.now) (told_staging staging.old) }
    requires over { Over ground.now.sector (told_ground ground.now) (told_staging staging.old) to n }
    requires from { From ground.now.sector (told_ground ground.now) (told_staging staging.old) from n }
    ensures copied { told_staging staging.new ≡
        span_copied ground.now.sector (told_ground ground.now) to from n (told_staging staging.old) }
    ensures same_bytes { staging.new.bytes.ghost_name ≡ staging.old.bytes.ghost_name }
{
    let z = ground.sector;
    staging.copy_in(ground, to / z);
    let there = place(z, staging.staged, to);
    if staging.is_bare(from / z) {
        area::copy_between(
            ground.disk,
            place(z, ground.slots, from),
            staging.bytes,
            there,
            n,
        );
    } else {
        let here = place(z, staging.staged, from);
        area::move_within(staging.bytes, here, there, n);
    }
}

// Two spans of n bytes exchanged, both as they were at the start. The second's slot is taken first.
pub fn swap(ground: &Ground, staging: &mut Staging, one: usize, two: usize, n: usize)
    requires lent { Lent ground.now.sector (told_ground ground.now) (told_staging staging.old) }
    requires two { Two ground.now.sector (told_ground ground.now) (told_staging staging.old) one two n }
    ensures swapped { told_staging staging.new ≡
        spans_swapped ground.now.sector (told_ground ground.now) one two n (told_staging staging.old) }
    ensures same_bytes { staging.new.bytes.ghost_name ≡ staging.old.bytes.ghost_name }
{
    let z = ground.sector;
    staging.copy_in(ground, two / z);
    staging.copy_in(ground, one / z);
    let first = place(z, staging.staged, one);
    let second = place(z, staging.staged, two);
    area::swap_within(staging.bytes, first, second, n);
}
