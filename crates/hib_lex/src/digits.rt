// Which bytes are digits, and the number that digits come to.
ghost use Rattle.std.specs.List.{list_all};
ghost use Rattle.std.specs.Prelude.{◌≡◌, ◌^◌, ◌<◌, SomeIff};
ghost use Rattle.hib_lex.specs.Tokens as lines;

/// Whether these bytes are `0`, or digits that don't begin with 0.
pub fn is_natural(digits: &[u8]) -> bool
    ensures { result ≡ lines.is_natural digits.now }
{
    matches!(digits, [b'0']) || is_positive(digits)
}

/// Whether these bytes are digits that don't begin with 0.
pub(crate) fn is_positive(digits: &[u8]) -> bool
    ensures { result ≡ lines.is_positive digits.now }
{
    match digits {
        [] => false,
        [first, ..] => *first != b'0' && are_digits(digits),
    }
}

fn are_digits(bytes: &[u8]) -> bool
    ensures { result ≡ list_all lines.is_digit bytes.now }
{
    bytes.iter().all(|byte| byte.is_ascii_digit())
}

/// What digits add up to, each with the weight of its place; none from 2^64 on.
#[tactic(auto, using(crate::proofs::Scans::digit_next, crate::proofs::Scans::size_grows, crate::proofs::Scans::size_done))]
pub fn size_of_digits(digits: &[u8]) -> Option<u64>
    ensures { SomeIff result (lines.size_of digits.now < 2 ^ 64) (lines.size_of digits.now) }
{
    let mut size: u64 = 0;
    for digit in digits {
        size = size
            .checked_mul(10)?
            .checked_add(u64::from(digit.saturating_sub(b'0')))?;
    }
    Some(size)
}
