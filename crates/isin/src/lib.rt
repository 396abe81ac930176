// ISO 6166 identifiers: their form and their check digit. No country list is consulted.
#![tactic(auto)]

ghost use Rattle.std.specs.Prelude.{◌≡◌, true, ℕ, ◌+◌, ◌≤◌, ◌<◌, length, get_or};
ghost use Rattle.refusal.specs.Numbers.{answer_of};
ghost use Rattle.isin.specs.Isin.{value_of, weight, sum_of, all_in, has_form, verdict_of};
ghost use Rattle.isin.specs.Values.{is_letter, is_digit, is_allowed, by_arithmetic};

use refusal::Refusal;

// A digit doubled, the digits of the doubled number added.
const DOUBLED: [u8; 10] = [0, 2, 4, 6, 8, 1, 3, 5, 7, 9];

// Whether b is one of A to Z.
fn is_letter(b: u8) -> bool
    ensures { result ≡ is_letter b }
{
    b.is_ascii_uppercase()
}

// Whether b is one of 0 to 9.
fn is_digit(b: u8) -> bool
    ensures { result ≡ is_digit b }
{
    b.is_ascii_digit()
}

// Whether b is an allowed character.
fn is_allowed(b: u8) -> bool
    ensures { result ≡ is_allowed b }
{
    is_letter(b) | is_digit(b)
}

// The value of an allowed character, with no branch: a digit stands for itself, A is 10 up to Z which is 35.
fn value(b: u8) -> u8
    requires { is_allowed b ≡ true }
    ensures value { result ≡ value_of b }
    ensures value_2 { result ≡ by_arithmetic b }
    ensures upper_bound { result < 36 }
{
    b - 48 - 7 * (b / 65)
}

// What a digit adds to the sum.
fn weighed(d: u8, twice: bool) -> u8
    requires { d < 10 }
    ensures value { result ≡ weight twice d }
    ensures upper_bound { result < 10 }
{
    if twice { DOUBLED[d as usize] } else { d }
}

// The sum over the expanded digits of s, from the right end.
fn sum(s: &[u8]) -> u32
    requires s_len_bound { length s.now ≤ 11 }
    requires by_index { (i : ℕ) → i < length s.now → is_allowed (get_or s.now i 0) ≡ true }
    ensures value { result ≡ sum_of s.now }
    ensures upper_bound { result < 1000 }
{
    let mut t: u32 = 0;
    let mut twice = true;
    for i in (0..s.len()).rev() {
        let v = value(s[i]);
        if is_digit(s[i]) {
            t += weighed(v, twice) as u32;
            twice = !twice;
        } else {
            t += weighed(v % 10, twice) as u32;
            t += weighed(v / 10, !twice) as u32;
        }
    }
    t
}

// Whether each character of s is allowed. The loop does not end early, so that the compiler can test several characters at once.
fn all_allowed(s: &[u8]) -> bool
    ensures { result ≡ all_in 0 35 s.now }
{
    let mut allowed = true;
    for b in s {
        allowed &= is_allowed(*b);
    }
    allowed
}

// Two letters, nine letters or digits, one digit.
#[tactic(auto, using(crate::proofs::Form::two_letters, crate::proofs::Form::check_digit), unfolding(crate::specs::Isin::has_form))]
fn has_form(id: &[u8]) -> bool
    ensures { result ≡ has_form id.now }
{
    if id.len() != 12 {
        return false;
    }
    is_letter(id[0]) & is_letter(id[1]) & all_allowed(&id[2..11]) & is_digit(id[11])
}

// Whether an identifier passes: its form, and then its check digit.
pub fn verdict(id: &[u8]) -> Result<(), Refusal>
    ensures { answer_of result ≡ verdict_of id.now }
{
    if !has_form(id) {
        return Err(Refusal::IdentifierForm);
    }
    let t = sum(&id[0..11]) + value(id[11]) as u32;
    if t % 10 == 0 {
        Ok(())
    } else {
        Err(Refusal::CheckDigit)
    }
}
