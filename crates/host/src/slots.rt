// Slots in an array.
ghost use Rattle.std.specs.Prelude.{◌≤◌};

// The first `count` of an array. Eight places of 64 fill it.
// Kept: an array with a count, since nothing here is on the heap, and since definitions (`listed`) see both fields.
#[derive(Clone, Copy)]
pub struct Slots {
    pub count: usize,
    pub items: [u8; 512],
    pub ghost few: { count ≤ 512 },
}

impl Slots {
    ghost use Rattle.std.specs.Prelude.{◌≡◌, ◌++◌, ◌+◌, [], length};
    ghost use Rattle.host.specs.Listed.{listed};

    pub(crate) fn new() -> Slots
        ensures { (listed result ≡ []) × (result.count ≡ 0) }
    {
        Slots {
            count: 0,
            items: [0; 512],
        }
    }

    pub fn as_slice(&self) -> &[u8]
        ensures { result.now ≡ listed self.now }
    {
        &self.items[..self.count]
    }

    // Lists more slots, behind the others.
    pub(crate) fn extend(&mut self, more: &[u8])
        requires { self.old.count + length more.now ≤ 512 }
        ensures { (listed self.new ≡ listed self.old ++ more.now) × (self.new.count ≡ self.old.count + length more.now) }
    {
        let end = self.count + more.len();
        self.items[self.count..end].copy_from_slice(more);
        self.count = end;
    }
}
