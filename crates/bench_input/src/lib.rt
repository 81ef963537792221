// One input of the program of the bench, kept as far as it can matter: nine ids (a host holds eight contracts), 2,897 bytes of head (the
// longest head has 2,896) and 65,537 bytes of data (at most 65,536 are declared). What is longer is counted and dropped, and the numbers
// ahead of it are lowered, so that an input of any length has its answer. Rests on `bench_program` for what an input means, and on `stdin`.
#![tactic(auto)]

ghost use Rattle.std.specs.Prelude.{◌≡◌, ◌^◌, ◌≤◌, ◌<◌, length, take, [], ◌∷◌, IfOk, MatchResult};
ghost use Rattle.bench_input.specs.Reader as Says;
ghost use Rattle.bench_input.specs.Reader.{state, fresh, ids_from, head_from, data_from, number_to, fed_byte, in_data};
ghost use Rattle.bench_input.specs.Gathered.{reads_on, Feeds, Gathered};
ghost use Rattle.bench_input.specs.Kept.{outcome};

use std::io;
use std::io::{Read, Write};

// Which section the next byte belongs to.
// Kept: `Clone` and `Copy` alone, here and below: nothing compares or prints these.
#[derive(Clone, Copy)]
pub enum Section {
    Front,
    Ids,
    Length,
    Head,
    Data,
}

// Where a reader stands: how many ids are to come behind this one, how many bytes of this section (of this id), how many of the section's
// bytes are still kept, and how many bytes stand in the area.
// Kept: how many bytes stand in the area beside it, since nothing here is on the heap, and since definitions (`state`, `holds`) see the field.
#[derive(Clone, Copy)]
pub struct Reader {
    pub section: Section,
    pub ids: u64,
    pub left: u64,
    pub room: u64,
    pub at: usize,
}

impl Reader {
    // The price count, prices, budget and contract count.
    pub const FRONT: u64 = 80;

    pub const NUMBER: u64 = 8;

    // The bytes of an id, and how many ids are kept; how many bytes of head and of data.
    pub const ID: u64 = 32;

    pub const IDS: u64 = 9;

    pub const HEAD: u64 = 2_897;

    pub const DATA: u64 = 65_537;

    // All that is kept.
    pub const KEPT: usize = 68_810;

    // Ahead of the first byte.
    pub fn new() -> Reader
        ensures { result ≡ fresh }
    {
        Reader {
            section: Section::Front,
            ids: 0,
            left: Reader::FRONT,
            room: Reader::FRONT,
            at: 0,
        }
    }

    // So many ids are to come: the next of them, or the head's length behind them.
    fn ids_from(ids: u64, room: u64, at: usize) -> Reader
        ensures { result ≡ ids_from ids room at }
    {
        if ids == 0 {
            return Reader {
                section: Section::Length,
                ids: 0,
                left: Reader::NUMBER,
                room: Reader::NUMBER,
                at,
            };
        }
        Reader {
            section: Section::Ids,
            ids: ids - 1,
            left: Reader::ID,
            room,
            at,
        }
    }

    // A head of n bytes, or the data behind it.
    fn head_from(n: u64, at: usize) -> Reader
        ensures { result ≡ head_from n at }
    {
        if n == 0 {
            return Reader::data_from(at);
        }
        Reader {
            section: Section::Head,
            ids: 0,
            left: n,
            room: n.min(Reader::HEAD),
            at,
        }
    }

    // Data, which has no end.
    fn data_from(at: usize) -> Reader
        ensures { result ≡ data_from at }
    {
        Reader {
            section: Section::Data,
            ids: 0,
            left: 0,
            room: Reader::DATA,
            at,
        }
    }

    // Behind a section that has ended.
    fn next(self, all: &mut [u8]) -> Reader
        ensures { state result all.new ≡ Says.next (state self all.old) }
    {
        let at = self.at;
        match self.section {
            Section::Front => {
                let n = number_to(&*all, at);
                lower(all, at, Reader::IDS);
                Reader::ids_from(n, n.min(Reader::IDS) * Reader::ID, at)
            }
            Section::Ids => Reader::ids_from(self.ids, self.room, at),
            Section::Length => {
                let n = number_to(&*all, at);
                lower(all, at, Reader::HEAD);
                Reader::head_from(n, at)
            }
            Section::Head => Reader::data_from(at),
            Section::Data => self,
        }
    }

    // A byte of this section: it is counted, and laid behind what stands where it is kept.
    fn laid(mut self, byte: u8, all: &mut [u8]) -> Reader
        ensures { state result all.new ≡ Says.laid (state self all.old) (byte ∷ []) }
    {
        let at = self.at;
        let room = self.room;
        self.left = self.left.saturating_sub(1);
        self.room = room.saturating_sub(1);
        if room == 0 {
            return self;
        }
        if all.len() <= at {
            return self;
        }
        all[at] = byte;
        self.at = at + 1;
        self
    }

    // A byte, and the next section where this one has ended.
    fn feed_byte(self, byte: u8, all: &mut [u8]) -> Reader
        ensures { state result all.new ≡ fed_byte (state self all.old) byte }
    {
        let one = self.laid(byte, all);
        if 0 < one.left {
            return one;
        }
        one.next(all)
    }

    // Takes what a read brought: what is kept of it is laid in the area, behind what stands there.
    pub fn feed(self, bytes: &[u8], all: &mut [u8]) -> Reader
        ensures { state result all.new ≡ Says.fed (state self all.old) bytes.now }
    {
        let mut reader = self;
        for byte in bytes {
            reader = reader.feed_byte(*byte, all);
        }
        reader
    }

    // How many bytes of the area are the input to be answered: none where bytes ahead of the data are missing.
    pub fn held(self) -> usize
        ensures { result ≡ Says.held self }
    {
        if in_data(self.section) {
            return self.at;
        }
        0
    }

    // Whether nothing that comes is kept.
    pub fn full(self) -> bool
        ensures { result ≡ Says.full self }
    {
        in_data(self.section) && self.room == 0
    }
}

// Whether all that stands ahead of the data has come.
fn in_data(section: Section) -> bool
    ensures { result ≡ in_data section }
{
    matches!(section, Section::Data)
}

// The number that ends at a place, or 0 where none does.
fn number_to(all: &[u8], at: usize) -> u64
    ensures { result ≡ number_to all.now at }
{
    if at < 8 {
        return 0;
    }
    if all.len() < at {
        return 0;
    }
    area::load(all, at - 8)
}

// That number lowered to what is kept, where it is above that.
fn lower(all: &mut [u8], at: usize, most: u64)
    ensures { all.new ≡ Says.lowered all.old at most }
{
    let n = number_to(&*all, at);
    if n <= most {
        return;
    }
    area::store(all, at - 8, 8, most);
}

// Where a reader stands between two reads, and how many bytes are to come at most.
#[derive(Clone, Copy)]
struct Turn {
    pub reader: Reader,
    pub left: u64,
}

// Whether to read on: bytes may come, and either one of them may be kept or another input follows.
fn more(turn: Turn, follows: bool) -> bool
    ensures { result ≡ reads_on turn.left follows turn.reader }
{
    0 < turn.left && (follows || !turn.reader.full())
}

// A piece of the input, fed.
fn feed_piece(reader: Reader, bytes: &[u8], all: &mut [u8]) -> Reader
    ensures { Feeds (state reader all.old) (state result all.new) }
{
    reader.feed(bytes, all)
}

// One read, and what it brought fed. Where it brought nothing, nothing more is to come. A read that fails leaves the area as it was.
fn read_once(source: &mut impl Read, turn: Turn, all: &mut [u8]) -> io::Result<Turn>
    requires { 0 < turn.left }
    ensures feeds { MatchResult result (λ t. Feeds (state turn.reader all.old) (state t.reader all.new)) (λ _. all.new ≡ all.old) }
    ensures left_lt_left { IfOk result (λ t. t.left < turn.left) }
{
    let reader = turn.reader;
    let mut space = [0u8; 65536];
    let got = stdin::fill(source, turn.left, &mut space)?;
    let left = turn.left - got as u64;
    if got == 0 {
        return Ok(Turn { reader, left: 0 });
    }
    let fed = feed_piece(reader, &space[0..got], all);
    Ok(Turn { reader: fed, left })
}

// Reads an input of at most `left` bytes from standard input, keeps it at the front of an area, and answers how many bytes stand there. It
// stops where nothing more is kept; where another input follows, it reads on to the end of this one. For an area of another length it reads
// nothing. A read that fails ends it with the error; what was kept ahead of it stands in the area.
pub fn gather(source: &mut impl Read, left: u64, follows: bool, all: &mut [u8]) -> io::Result<usize>
    ensures { MatchResult result (λ n. Gathered all.new n) (λ _. length all.new ≡ length all.old) }
{
    if all.len() != Reader::KEPT {
        return Ok(0);
    }
    let mut turn = Turn {
        reader: Reader::new(),
        left,
    };
    // Kept: no plainer, each turn takes as many bytes off `turn.left` as a read brought.
    while more(turn, follows) {
        turn = read_once(source, turn, all)?;
    }
    Ok(turn.reader.held())
}

// Plays the first n bytes of an area on a host with sectors of that size and on fresh areas of these lengths. What is to be written out stands
// then at the front of the output area: so many bytes.
fn played<const DISK: usize, const STAGE: usize>(
    sector: u64,
    all: &[u8],
    n: usize,
    output: &mut [u8],
) -> usize
    requires within { n ≤ length all.now }
    requires room { 8 ≤ length output.old }
    requires sizes { (DISK < 2 ^ 63) × (STAGE < 2 ^ 63) }
    ensures { take result output.new ≡ outcome sector DISK STAGE (take n all.now) output.old }
{
    let mut disk = [0u8; DISK];
    let mut stage = [0u8; STAGE];
    let mut input = [0u8; 65_536];
    bench_program::play(sector, &all[..n], &mut disk, &mut stage, &mut input, output)
}

// Reads one input, plays it on a host with sectors of that size and on fresh areas of these lengths, and writes what it comes to: the records,
// or a refusal's number in 8 bytes.
pub fn answer<const DISK: usize, const STAGE: usize, const OUTPUT: usize>(
    source: &mut impl Read,
    sink: &mut impl Write,
    sector: u64,
) -> io::Result<()>
    requires room { 8 ≤ OUTPUT }
    requires sizes { (DISK < 2 ^ 63) × (STAGE < 2 ^ 63) × (OUTPUT < 2 ^ 63) }
{
    let mut all = [0u8; Reader::KEPT];
    let n = gather(source, u64::MAX, false, &mut all)?;
    let mut output = [0u8; OUTPUT];
    let shown = played::<DISK, STAGE>(sector, &all, n, &mut output);
    show(sink, &output, shown)
}

// Writes the first n bytes of what is to be written out.
pub fn show(sink: &mut impl Write, output: &[u8], n: usize) -> io::Result<()> {
    if n <= output.len() {
        sink.write_all(&output[0..n])?;
    }
    Ok(())
}
