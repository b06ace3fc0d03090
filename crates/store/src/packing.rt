ghost use Rattle.std.specs.Prelude.{◌≡◌, ◌<◌};
ghost use Rattle.store.specs.Packing.{IsPacked, cell_bytes, packed, pair_byte, pair_in, unpacked};

// How many bytes a cell takes: fourteen digits, two a byte.
pub(crate) const CELL_BYTES: usize = 7;

// The byte whose halves are the two digits of a number below a hundred.
fn join_digits(pair: u64) -> u8
    requires { pair < 100 }
    ensures { result ≡ pair_byte pair }
{
    // at most 9 * 16 + 9, so the cast loses nothing
    (pair / 10 * 16 + pair % 10) as u8
}

// The number that the two halves of a byte write.
fn split_digits(byte: u8) -> u64
    ensures { result ≡ pair_in byte }
{
    let byte = u64::from(byte);
    byte / 16 * 10 + byte % 16
}

// A number's fourteen lowest digits, the highest pair first.
pub(crate) fn pack(number: u64) -> [u8; CELL_BYTES]
    ensures { result ≡ packed cell_bytes number }
{
    let mut bytes = [0; CELL_BYTES];
    let mut rest = number;
    for byte in &mut bytes {
        *byte = join_digits(rest % 100);
        rest /= 100;
    }
    bytes.reverse();
    bytes
}

// The number that seven bytes of two digits each write.
pub(crate) fn unpack(bytes: [u8; CELL_BYTES]) -> u64
    requires { IsPacked bytes }
    ensures { result ≡ unpacked bytes }
{
    let mut number = 0;
    for byte in bytes {
        number = number * 100 + split_digits(byte);
    }
    number
}
