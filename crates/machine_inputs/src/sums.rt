// A sum against a limit. A sum that could pass 64 bits is never made: what is left of the limit is counted down.
ghost use Rattle.std.specs.Prelude.{◌≡◌, ◌+◌, ltb};

// Whether a sum is above a limit.
pub fn above(limit: u64, one: u64, two: u64) -> bool
    ensures { result ≡ ltb limit (one + two) }
{
    limit < one || limit - one < two
}
