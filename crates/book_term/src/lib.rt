// A term of the book, 19 bytes, read into a bond.
#![tactic(auto)]

ghost use Rattle.std.specs.Prelude.{◌≡◌};
ghost use Rattle.std.specs.Float.{binary64};
ghost use Rattle.std.specs.Float.Ieee.{nan_bits};
ghost use Rattle.book_term.specs.Term.{checked, payments_of, term_from, term_of};

use pricer::{Bond, Terms};

// Whether these are the bits of a NaN: past those of infinity, whatever the sign.
pub fn is_nan(bits: u64) -> bool
    ensures { result ≡ nan_bits binary64 bits }
{
    0x7ff0_0000_0000_0000 < bits % 0x8000_0000_0000_0000
}

// The bond b where it is in range.
#[tactic(auto, unfolding(crate::specs::Term::checked))]
fn in_rules(b: Bond) -> Option<Bond>
    ensures { result ≡ checked b }
{
    pricer::in_range(b).then_some(b)
}

// The bond b with the terms of a kind and the bits of coupon and yield. No number is a NaN's, so its bits are looked for first.
fn from_fields(kind: u8, b: Bond, coupon: u64, ytm: u64) -> Option<Bond>
    ensures { result ≡ term_from kind b coupon ytm }
{
    if is_nan(ytm) {
        return None;
    }
    let y = f64::from_bits(ytm);
    match kind {
        1 if coupon != 0 => None,
        1 => in_rules(pricer::with_terms(b, Terms::Zero(y))),
        2 if is_nan(coupon) => None,
        2 => {
            let c = f64::from_bits(coupon);
            in_rules(pricer::with_terms(b, Terms::Fixed(c, y)))
        }
        _ => None,
    }
}

// The payments of a year that the third byte of a term states.
fn payments(byte: u8) -> u8
    ensures { result ≡ payments_of byte }
{
    if byte == 0 { 2 } else { byte }
}

// The bond that the 19 bytes of a term say, or none for a term outside the rules. Any other number of bytes is no term.
pub fn read(s: &[u8]) -> Option<Bond>
    ensures { result ≡ term_of s.now }
{
    if s.len() != 19 {
        return None;
    }
    let bare = Bond {
        periods: s[1],
        payments: payments(s[2]),
        ..pricer::NO_BOND
    };
    from_fields(s[0], bare, endian::u64_at(s, 3), endian::u64_at(s, 11))
}
