// Cost, fixed before an instruction runs.
ghost use Rattle.std.specs.Prelude.{◌≡◌, ◌+◌, ◌*◌, ◌^◌, ◌≤◌, ◌<◌};
ghost use Rattle.machine_rules.specs.Plan.{read_price, write_price};
ghost use Rattle.machine_rules.specs.Kinds as Kinds;
ghost use Rattle.machine_rules.specs.Plan as Says;
ghost use Rattle.machine_plan.specs.Numbers.{Small};

use host::Prices;
use machine_inputs::kind;
use sia::Op;

fn time(op: Op) -> u64
    ensures { (result ≡ Kinds.time op) × (result ≤ 30) }
{
    kind(op).time
}

// A base price and a price for each of n bytes.
fn price(base: u16, each: u16, n: u64) -> u64
    requires { n ≤ 4194304 }
    ensures { (result ≡ base + each * n) × (result < 2 ^ 39) }
{
    u64::from(base) + u64::from(each) * n
}

// Kept: two functions, here and below, as the definitions `read_price` and `write_price` are two: which prices they take is all that they say.
fn read_price(prices: Prices, n: u64) -> u64
    requires { n ≤ 4194304 }
    ensures { (result ≡ read_price prices n) × (result < 2 ^ 39) }
{
    price(prices.readbase, prices.readlength, n)
}

fn write_price(prices: Prices, n: u64) -> u64
    requires { n ≤ 4194304 }
    ensures { (result ≡ write_price prices n) × (result < 2 ^ 39) }
{
    price(prices.writebase, prices.writelength, n)
}

// What an instruction costs besides its time.
fn own(prices: Prices, op: Op, n: u64) -> u64
    requires { Small op n }
    ensures { (result ≡ Says.own prices op n) × (result < 2 ^ 41) }
{
    // Kept: no plainer as a table of closures: these are the definition's cases, and the arms take other arguments.
    match op {
        Op::Read | Op::ReadSector => read_price(prices, n),
        Op::Write => write_price(prices, n),
        Op::Copy => read_price(prices, n) + write_price(prices, n),
        Op::Swap => 2 * (read_price(prices, n) + write_price(prices, n)),
        Op::Truncate => u64::from(prices.truncatebase),
        Op::Unknown => 0,
    }
}

// The time's share of memory, and its own.
pub fn cost(declared: u64, prices: Prices, op: Op, n: u64) -> u64
    requires declared_bound { declared ≤ 65536 }
    requires small { Small op n }
    ensures { result ≡ Says.cost declared prices op n }
{
    (Prices::MEMORY + declared) * time(op) * u64::from(prices.memory) + own(prices, op, n)
}
