// A list by a value: what a caller writes, and one that is read.
ghost use Rattle.std.specs.Prelude.{◌≡◌, ℕ, ◌<◌, max};
ghost use Rattle.words.specs.Answers.{number_read};
ghost use Rattle.words.specs.Reads.{number_at};
ghost use Rattle.entries.specs.Gathered.{step_of, ended};

use super::*;

// The greatest number of a line's list, by a separator that is chosen.
#[derive(Drop)]
struct Greatest<'a> {
    line: &'a [u8],
    between: u8,
    ghost mark: { 0 < between },
}

impl<'a> Steps for Greatest<'a> {
    type Made = u64;

    ghost separator = { λ list. list.between };

    ghost step = { λ list m c r. r ≡ ended (step_of max (λ (e : ℕ). number_read (number_at list.line.now e)) m c.at) };

    fn separator(&self) -> u8 {
        self.between
    }

    fn step(&self, m: u64, c: Cursor) -> Option<(u64, Cursor)> {
        let (n, next) = c.number(self.line)?;
        Some((m.max(n), next))
    }
}

#[test]
fn greatest_between_semicolons(rt: HostRuntime) {
    let list = Greatest {
        line: b"7;3;20,5",
        between: b';',
    };
    let made = gather_by(list.line, 0, Cursor { at: 0 }, &list);
    assert_eq!(rt; made.map(|(m, next)| (m, next.at)), Some((20, 6)));
}
