// Lists with a separator, taken up as they are read.
ghost use Rattle.std.specs.Prelude.{◌≡◌, ℕ, ◌+◌, ◌<◌, ◌≤◌, length, List, Option, Some};
ghost use Rattle.words.specs.declared.cursor.Cursor.{Cursor};
ghost use Rattle.entries.specs.Gathered.{gathered, ended, Leads};

use words::cursor::Cursor;

// A list by its separator, and by how an element is read and taken up in what came of those before it.
pub trait Listed {
    type Made: Copy;

    const SEPARATOR: u8;

    ghost SEPARATOR: { ℕ };

    ghost step: { List ℕ → Self.Made → ℕ → Option (Self.Made × ℕ) };

    // No step goes a way back.
    fn take(s: &[u8], m: Self::Made, c: Cursor) -> Option<(Self::Made, Cursor)>
        ensures value { result ≡ ended (step s.now m c.at) }
        ensures onward { (r : Self.Made × ℕ) → step s.now m c.at ≡ Some r → c.at ≤ r.1 };

    // No line has a byte 0, which stands for its end.
    ghost marks: { 0 < SEPARATOR };
}

// What a list comes to, and the place after it.
#[inline(always)]
pub fn gather<L: Listed>(s: &[u8], start: L::Made, c: Cursor) -> Option<(L::Made, Cursor)>
    ensures { result ≡ ended (gathered (L.step s.now) L.SEPARATOR s.now (length s.now + 1) start c.at) }
{
    let mut m = start;
    let mut at = c.at;
    // No index: it goes on where the last element ended.
    loop {
        let (more, next) = L::take(s, m, Cursor { at })?;
        if next.byte(s) != L::SEPARATOR {
            return Some((more, next));
        }
        m = more;
        at = next.at + 1;
    }
}

// A list by a value, as a closure would be one: its separator may be chosen, and its step goes by what the value holds and may answer this or that.
pub trait Steps {
    type Made: Copy;

    ghost separator: { Self → ℕ };

    ghost step: { Self → Self.Made → Cursor → Option (Self.Made × Cursor) → Type 0 };

    // No line has a byte 0, which stands for its end.
    fn separator(&self) -> u8
        ensures value { result ≡ separator self.now }
        ensures mark { 0 < result };

    // No step goes a way back.
    fn step(&self, m: Self::Made, c: Cursor) -> Option<(Self::Made, Cursor)>
        ensures answer { step self.now m c result }
        ensures onward { (r : Self.Made × Cursor) → result ≡ Some r → c.at ≤ r.1.at };
}

// What a list comes to by the steps of a value, one after the other, and the place after it.
pub fn gather_by<L: Steps>(
    s: &[u8],
    start: L::Made,
    c: Cursor,
    list: &L,
) -> Option<(L::Made, Cursor)>
    ensures led { Leads (L.step list.now) (L.separator list.now) s.now (length s.now + 1) start c.at result }
    ensures gathered { (t : L.Made → ℕ → Option (L.Made × ℕ))
        → ((m : L.Made) (c : Cursor) (r : Option (L.Made × Cursor)) → L.step list.now m c r → r ≡ ended (t m c.at))
        → result ≡ ended (gathered t (L.separator list.now) s.now (length s.now + 1) start c.at) }
{
    let mut m = start;
    let mut at = c.at;
    loop {
        let (made, next) = list.step(m, Cursor { at })?;
        if next.byte(s) != list.separator() {
            return Some((made, next));
        }
        m = made;
        at = next.at + 1;
    }
}

#[cfg(test)]
mod tests;
