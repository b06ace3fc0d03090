ghost use Rattle.std.specs.Prelude.{◌≡◌, ◌≤◌, length, drop, IfOk, MatchResult};
ghost use Rattle.rules.specs.Reading.{got, fails, is_digit, digit_run, Digits, number_of, constant_at};

use crate::failure::Failure;
use rules::limits::DIGIT_LIMIT;
use rules::refusal::Fault;

pub fn is_digit(b: u8) -> bool
    ensures { result ≡ is_digit b }
{
    b.is_ascii_digit()
}

// How many digits the bytes begin with.
fn digit_run(text: &[u8]) -> usize
    ensures { result ≡ digit_run text.now }
{
    text.iter().take_while(|b| is_digit(**b)).count()
}

// The number that digits write.
fn number(digits: &[u8]) -> u64
    requires short { length digits.now ≤ 14 }
    requires digits { Digits digits.now }
    ensures { result ≡ number_of digits.now }
{
    // no `fold`, whose closure would have to be safe after any digits; no `parse`, which may fail
    let mut number = 0;
    for d in digits {
        number = number * 10 + u64::from(*d - b'0');
    }
    number
}

// The whole run of digits that the bytes begin with, at most 14 and without a needless leading zero: its number, and how many
// digits they are.
pub fn constant(text: &[u8]) -> Result<(u64, usize), Failure>
    ensures reads { MatchResult result (λ p. constant_at text.now ≡ got p.0 (drop p.1 text.now)) (λ e. constant_at text.now ≡ fails e.fault e.left) }
    ensures run { IfOk result (λ p. p.1 ≡ digit_run text.now) }
{
    let run = digit_run(text);
    if run > DIGIT_LIMIT || run > 1 && text[0] == b'0' {
        return Err(Failure {
            fault: Fault::BadConstant,
            left: text.len(),
        });
    }
    Ok((number(&text[..run]), run))
}
