// Pieces of bytes between spaces, and the numbers and versions that they look like. Bytes that are none look like some
// all the same; an entry that was guessed so is written again, and refused if its text is another one.
ghost use Rattle.hib_entry_fields.specs.Fields as format;
ghost use Rattle.std.specs.Prelude.{◌≡◌, ◌^◌, drop, bytes_eq, codes};

use hib_lex::size_of_digits;

/// The bytes without the first.
pub fn after_one(bytes: &[u8]) -> &[u8]
    ensures { result.now ≡ drop 1 bytes.now }
{
    match bytes {
        [] => bytes,
        [_, rest @ ..] => rest,
    }
}

/// Whether a byte ends a piece.
fn is_stop(byte: u8) -> bool
    ensures { result ≡ format.is_stop byte }
{
    byte == b' ' || byte == b']'
}

/// How many bytes the piece at the front has.
#[tactic(auto, using(crate::proofs::Scans::piece_next, crate::proofs::Scans::piece_done, crate::proofs::Scans::piece_fits))]
fn piece_len(bytes: &[u8]) -> usize
    ensures { result ≡ format.piece_len bytes.now }
{
    let mut len = 0;
    while len < bytes.len() && !is_stop(bytes[len]) {
        len += 1;
    }
    len
}

/// The piece at the front, up to a space or a bracket, and what follows it.
#[tactic(auto, using(crate::proofs::Scans::piece_fits), unfolding(crate::specs::Fields::piece, crate::specs::Fields::behind))]
pub fn piece(bytes: &[u8]) -> (&[u8], &[u8])
    ensures piece { result.0.now ≡ format.piece bytes.now }
    ensures behind { result.1.now ≡ format.behind bytes.now }
{
    bytes.split_at(piece_len(bytes))
}

/// The piece after a space, and what follows it.
#[tactic(auto, unfolding(crate::specs::Fields::next, crate::specs::Fields::after))]
pub fn next(bytes: &[u8]) -> (&[u8], &[u8])
    ensures next { result.0.now ≡ format.next bytes.now }
    ensures after { result.1.now ≡ format.after bytes.now }
{
    piece(after_one(bytes))
}

/// The number that a piece looks like; 0 if it is too large.
#[tactic(auto, unfolding(crate::specs::Fields::number_of))]
pub fn number_of(piece: &[u8]) -> u64
    ensures { result ≡ format.number_of piece.now }
{
    match size_of_digits(piece) {
        Some(n) => n,
        None => 0,
    }
}

/// A number, if it has 32 bits at most; else 0.
pub fn small(n: u64) -> u32
    ensures { result ≡ format.small (2 ^ 32) n }
{
    if n < 1 << 32 { n as u32 } else { 0 }
}

/// The number of this size below 0; 0 if there is none.
fn below_zero(n: u64) -> i64
    ensures { result ≡ format.below_zero n }
{
    if n > 1 << 63 {
        0
    } else if n == 0 {
        0
    } else {
        -((n - 1) as i64) - 1
    }
}

/// The number that a piece looks like, which may have a sign; 0 if it is too large.
pub fn signed_of(piece: &[u8]) -> i64
    ensures { result ≡ format.signed_of piece.now }
{
    match piece {
        [] => 0,
        [b'-', digits @ ..] => below_zero(number_of(digits)),
        _ => {
            let n = number_of(piece);
            if n < 1 << 63 { n as i64 } else { 0 }
        }
    }
}

/// The version that a piece looks like.
pub fn version_of(piece: &[u8]) -> Option<u32>
    ensures { result ≡ format.version_of piece.now }
{
    match piece {
        [] => None,
        [_, rest @ ..] => {
            if is_dash(rest) {
                return None;
            }
            let n = number_of(rest);
            if n < 1 << 32 { Some(n as u32) } else { Some(0) }
        }
    }
}

fn is_dash(bytes: &[u8]) -> bool
    ensures { result ≡ bytes_eq bytes.now (codes "-") }
{
    is(bytes, b"-")
}

/// Whether bytes are a word.
pub fn is(bytes: &[u8], word: &[u8]) -> bool
    ensures { result ≡ bytes_eq bytes.now word.now }
{
    bytes == word
}
