// Where an item ends: its first byte says how many follow, and which of them are the length of a head, a piece or a proof.
ghost use Rattle.std.specs.Prelude.{◌≤◌, length, IfSome};

// The kinds of items.
#[derive(Clone, Copy, PartialEq, Eq)]
pub enum Kind {
    Fresh,
    FreshOf,
    Form,
    Drop,
    Open,
    Piece,
    Interrupt,
    GiveUp,
    Agree,
    Reached,
    Sound,
    Locate,
    Poke,
    Check,
}

// No item begins with such a byte.
// Kept: `Clone` and `Copy` alone: nothing compares or prints it.
#[derive(Clone, Copy)]
pub struct NoKind;

impl TryFrom<u8> for Kind {
    type Error = NoKind;

    fn try_from(first: u8) -> Result<Self, NoKind> {
        match first {
            b'F' => Ok(Kind::Fresh),
            b'N' => Ok(Kind::FreshOf),
            b'f' => Ok(Kind::Form),
            b'd' => Ok(Kind::Drop),
            b'o' => Ok(Kind::Open),
            b'p' => Ok(Kind::Piece),
            b'i' => Ok(Kind::Interrupt),
            b'g' => Ok(Kind::GiveUp),
            b'a' => Ok(Kind::Agree),
            b'r' => Ok(Kind::Reached),
            b's' => Ok(Kind::Sound),
            b'l' => Ok(Kind::Locate),
            b'x' => Ok(Kind::Poke),
            b'k' => Ok(Kind::Check),
            _ => Err(NoKind),
        }
    }
}

impl Kind {
    // How many bytes follow the first byte of an item, but for a head, a piece or a proof at its end.
    pub fn fixed(self) -> usize
        ensures { (16 ≤ result) × (result ≤ 80) }
    {
        match self {
            Kind::Fresh => 17,
            Kind::FreshOf => 25,
            Kind::Form | Kind::Drop | Kind::Locate | Kind::Poke => 32,
            Kind::Open => 80,
            Kind::Piece => 40,
            Kind::Interrupt | Kind::GiveUp | Kind::Reached | Kind::Sound => 16,
            Kind::Agree => 56,
            Kind::Check => 72,
        }
    }

    // The most bytes of a head, a piece or a proof at the end of an item that its call looks at: one more than any head has, than any data,
    // and than a proof that is looked at. Of a longer one the call answers the same.
    pub fn most(self) -> Option<u64>
        ensures { IfSome result (λ n. n ≤ 131073) }
    {
        match self {
            Kind::Open => Some(2_897),
            Kind::Piece => Some(65_537),
            Kind::Check => Some(131_073),
            _ => None,
        }
    }

    // Whether the numbers of an item allow what stands at its end: the bytes of a proof's segments are a part of it.
    pub fn right(self, item: &[u8]) -> bool {
        self != Kind::Check || 73 <= item.len() && area::load(item, 57) <= area::load(item, 65)
    }
}

// The length of the item that `item` begins with, if it is whole. A head, a piece or a proof stands behind its length.
pub fn whole(item: &[u8]) -> Option<usize>
    ensures { IfSome result (λ n. n ≤ length item.now) }
{
    let kind = Kind::try_from(*item.first()?).ok()?;
    let front = 1 + kind.fixed();
    if item.len() < front {
        return None;
    }
    if kind.most().is_none() {
        return Some(front);
    }
    let length = area::load(item, front - 8);
    if ((item.len() - front) as u64) < length {
        return None;
    }
    Some(front + length as usize)
}
