ghost use Rattle.std.specs.Prelude.{◌≡◌, ◌<◌, ◌≤◌, [], ◌∷◌, ◌++◌, length, take, drop};
ghost use Rattle.std.specs.Fmt.{decimal};
ghost use Rattle.words.specs.Buffer.{Filled, put_before};

use std::marker::Model;

// Bytes that are put from the last one on, as the digits of a number come: what is put stands before what is there. The room for them is lent:
// there is no heap. Who puts asks for as many free bytes as it puts, since its callers know how many there are.
#[derive(Drop)]
pub struct FromEnd<'a> {
    room: &'a mut [u8],
    from: usize,
}

// Clauses see whose loan the room is, and every byte of it: those that are free, and the text that was put.
impl<'a> Model for FromEnd<'a> {
    ghost Value = { Filled };

    ghost view = { λ e. record { loan = e.room.ghost_name; free = take e.from e.room.now; text = drop e.from e.room.now } };

    ghost invariant = { λ e. e.from ≤ length e.room.now };
}

impl<'a> FromEnd<'a> {
    #[inline]
    pub fn new(room: &'a mut [u8]) -> Self
        ensures { result ≡ record { loan = room.entry.ghost_name; free = room.old; text = [] } }
    {
        let from = room.len();
        FromEnd { room, from }
    }

    #[inline]
    #[tactic(auto, unfolding(crate::specs::Buffer::put_before))]
    pub fn put_byte(&mut self, b: u8)
        requires { 0 < length self.old.free }
        ensures { self.new ≡ put_before (b ∷ []) self.old }
    {
        self.from -= 1;
        self.room[self.from] = b;
    }

    #[inline]
    #[tactic(auto, unfolding(crate::specs::Buffer::put_before))]
    pub fn put_bytes(&mut self, src: &[u8])
        requires { length src.now ≤ length self.old.free }
        ensures { self.new ≡ put_before src.now self.old }
    {
        let end = self.from;
        self.from -= src.len();
        self.room[self.from..end].copy_from_slice(src);
    }

    // The decimal digits of a number. The kit's crate `itoa` puts them before a place of a slice, and says which bytes they are.
    #[inline]
    #[tactic(auto, unfolding(crate::specs::Buffer::put_before))]
    pub fn put_digits(&mut self, n: u64)
        requires { length (decimal n) ≤ length self.old.free }
        ensures { self.new ≡ put_before (decimal n) self.old }
    {
        let end = self.from;
        self.from = itoa::write_digits(n, self.room, end);
    }

    #[inline]
    pub fn as_slice(&self) -> &[u8]
        ensures { result.now ≡ self.now.text }
    {
        &self.room[self.from..]
    }

    // Gives the room back, for a lender who wants to know what each byte of it holds. Who drops a `FromEnd` is told nothing of that: of a struct
    // with a model, `drop` has no field to speak of.
    #[inline]
    pub fn into_room(self) -> &'a mut [u8]
        ensures same_loan { result.ghost_name ≡ self.entry.loan }
        ensures bytes { result.now ≡ self.entry.free ++ self.entry.text }
    {
        let FromEnd { room, from: _ } = self;
        room
    }
}
