// "Over 256 bytes, or a byte outside 20 to 7E."
ghost use Rattle.std.specs.Prelude.{◌≡◌};
ghost use Rattle.sheet.specs.Refusals.{bytes_good};

const MOST_BYTES: usize = 256;

const LOWEST: u8 = b' ';

const HIGHEST: u8 = b'~';

#[tactic(auto, unfolding(sheet::specs::Refusals::bytes_good))]
pub(crate) fn good(line: &[u8]) -> bool
    ensures { result ≡ bytes_good line.now }
{
    if MOST_BYTES < line.len() {
        return false;
    }
    let mut good = true;
    // No way out before the end: so compiled, many bytes are tested at once.
    for byte in line {
        good &= (LOWEST..=HIGHEST).contains(byte);
    }
    good
}
