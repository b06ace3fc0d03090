// Numbers in bytes: how digits are put behind others, where the first number ends, and how it is read.
ghost use Rattle.std.specs.Prelude.{◌≡◌, ℕ, ◌+◌, ◌^◌, ◌≤◌, ◌==◌, List, ◌++◌, length, position};
ghost use Rattle.arrayvec.specs.ArrayVec.{array_vec_len};
ghost use Rattle.std.specs.Option.{option_map};
ghost use Rattle.std.specs.List.{slice_get};
ghost use Rattle.digits.specs.Text.{line_of, Behind, Below};

use arrayvec::ArrayVec;

// Puts digits at the end, one by one: to copy them as a block was no quicker for short numbers.
pub(crate) fn put_digits<const N: usize>(bytes: &mut ArrayVec<u8, N>, digits: &[u8])
    requires { array_vec_len bytes.old + length digits.now ≤ N }
    ensures items { bytes.new.items ≡ bytes.old.items ++ digits.now }
    ensures len { array_vec_len bytes.new ≡ array_vec_len bytes.old + length digits.now }
{
    for digit in digits {
        bytes.push(*digit);
    }
}

// Where the first number's comma stands.
pub(crate) fn first_comma(text: &[u8]) -> Option<usize>
    ensures { result ≡ position (λ b. b == 44) text.now }
{
    text.iter().position(|byte| *byte == b',')
}

// What stands behind the first number and its comma, if there is a number.
pub(crate) fn behind_first(text: &[u8]) -> Option<&[u8]>
    ensures { (ns : List ℕ) → Below (2 ^ 64) ns → text.now ≡ line_of ns → Behind ns (option_map (λ rest. rest.now) result) }
{
    let comma = first_comma(text)?;
    Some(&text[comma + 1..])
}

// The first number, if there is one. Bytes are taken up one by one until the comma: to look for the comma, to see that the digits are
// a `&str` and to parse that goes over them three times, which took twice as long for long numbers and three times for short ones.
pub(crate) fn first_number(text: &[u8]) -> Option<u64>
    ensures { (ns : List ℕ) → Below (2 ^ 64) ns → text.now ≡ line_of ns → result ≡ slice_get ns 0 }
{
    let mut number: u64 = 0;
    for byte in text {
        if *byte == b',' {
            return Some(number);
        }
        let units = u64::from(byte.saturating_sub(b'0'));
        number = number.wrapping_mul(10).wrapping_add(units);
    }
    None
}
