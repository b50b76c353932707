// Standard input, however its bytes come.
ghost use Rattle.std.specs.Prelude.{length};
ghost use Rattle.commission.specs.Read.{Within, Past};

use compile::MOST_BYTES;
use std::io::Read;

// Reads until the buffer is full or the input ends; how many bytes came, unless a read failed.
pub(crate) fn fill<R: Read>(input: &mut R, buffer: &mut [u8]) -> Option<usize>
    ensures { Within result (length buffer.new) }
{
    let mut n = 0;
    // No index: it goes on where the last read ended.
    while n < buffer.len() {
        let more = input.read(&mut buffer[n..]).ok()?;
        if more == 0 {
            break;
        }
        n += more;
    }
    Some(n)
}

// Behind a full sheet one more byte is asked for.
pub(crate) fn past<R: Read>(input: &mut R, n: usize, more: &mut [u8]) -> Option<usize>
    ensures within { Within result (length more.new) }
    ensures past { Past result n }
{
    if n < MOST_BYTES {
        return Some(0);
    }
    fill(input, more)
}
