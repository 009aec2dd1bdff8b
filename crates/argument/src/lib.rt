// What programs are told on their command line.
#![tactic(auto)]

ghost use Rattle.std.specs.Prelude.{◌≡◌};
ghost use Rattle.argument.specs.Small.{small_number};

// The number from 0 to 255 that a word is in decimal digits, or nothing where it is anything else. Zeros in front are digits like others, so a word may
// have any length.
#[tactic(auto, using(crate::proofs::Digits::no_digits, crate::proofs::Digits::some_digits, crate::proofs::Digits::read_none, crate::proofs::Digits::read_below, crate::proofs::Digits::read_above, crate::proofs::Digits::read_next_large, crate::proofs::Digits::read_next, crate::proofs::Digits::read_all))]
pub fn small_number(word: &[u8]) -> Option<u8>
    ensures { result ≡ small_number word.now }
{
    if word.len() == 0 {
        return None;
    }
    let mut value: u64 = 0;
    for &digit in word {
        if digit < b'0' {
            return None;
        }
        if b'9' < digit {
            return None;
        }
        value = value * 10 + (digit - b'0') as u64;
        if 255 < value {
            return None;
        }
    }
    Some(value as u8)
}
