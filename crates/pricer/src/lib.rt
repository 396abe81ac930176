// The price of a bond, struck on a coupon date after payment: document 01's formula with document 02's payments per year, in binary64, each
// operation rounded once, in its order.
// No function asks anything of its caller: a price is defined for every bond, also for one whose terms are out of range.
#![tactic(auto)]

ghost use Rattle.std.specs.Prelude.{◌≡◌};
ghost use Rattle.std.specs.Float.{binary64};
ghost use Rattle.std.specs.Float.Ieee.{to_bits};
ghost use Rattle.pricer.specs.Price.{yearly, zero_price, fixed_price, price_of, price_bits};
ghost use Rattle.pricer.specs.Bonds.{with_terms};
ghost use Rattle.pricer.specs.Range.{coupon_in_range, yield_in_range, payments_in_range, terms_in_range, in_range};

// The terms of a bond: a zero-coupon bond has its annual yield, a fixed coupon bond its annual coupon per 100 of face and its annual yield.
#[derive(Clone, Copy)]
pub enum Terms {
    Zero(f64),
    Fixed(f64, f64),
}

// An entry of the book once it is read: the payments left, which are its periods; how many there are in a year; and its terms.
#[derive(Clone, Copy)]
pub struct Bond {
    pub periods: u8,
    pub payments: u8,
    pub terms: Terms,
}

// What stands where there is no bond: no periods, no payments, and a zero's terms, all bits clear.
pub const NO_BOND: Bond = Bond {
    periods: 0,
    payments: 0,
    terms: Terms::Zero(0.0),
};

// What the pricer is handed for a fixed coupon bond. The yield (to maturity) is named ytm, since `yield` is a word of the language.
#[derive(Clone, Copy)]
pub struct FixedBond {
    pub periods: u8,
    pub coupon: f64,
    pub ytm: f64,
}

// The bond with other terms.
pub fn with_terms(b: Bond, t: Terms) -> Bond
    ensures { result ≡ with_terms b t }
{
    Bond { terms: t, ..b }
}

// The payments of a year as a number. Those that a book has are written out: where the processor converts them, a price waits for the one before it
// (docs/PERFORMANCE.md).
fn yearly(payments: u8) -> f64
    ensures { result ≡ yearly payments }
{
    match payments {
        1 => 1.0,
        2 => 2.0,
        4 => 4.0,
        12 => 12.0,
        _ => payments as f64,
    }
}

pub fn price_zero(periods: u8, payments: u8, ytm: f64) -> f64
    ensures { result ≡ zero_price periods payments ytm }
{
    let d = 1.0 + ytm / yearly(payments);
    let mut p = 100.0;
    for _i in 0..periods {
        p = p / d;
    }
    p
}

pub fn price_fixed(b: FixedBond, payments: u8) -> f64
    ensures { result ≡ fixed_price b payments }
{
    let k = yearly(payments);
    let d = 1.0 + b.ytm / k;
    let h = b.coupon / k;
    let mut p = 100.0;
    for _i in 0..b.periods {
        p = (p + h) / d;
    }
    p
}

#[tactic(auto, unfolding(crate::specs::Price::price_of))]
pub fn price(b: Bond) -> f64
    ensures { result ≡ price_of b }
{
    match b.terms {
        Terms::Zero(ytm) => price_zero(b.periods, b.payments, ytm),
        Terms::Fixed(coupon, ytm) => {
            let fixed = FixedBond {
                periods: b.periods,
                coupon,
                ytm,
            };
            price_fixed(fixed, b.payments)
        }
    }
}

// The 64 bits of x. A NaN has many bit patterns; the definition fixes one, which stands here.
pub fn bits(x: f64) -> u64
    ensures { result ≡ to_bits binary64 x }
{
    if x != x {
        0x7ff8_0000_0000_0000
    } else {
        f64::to_bits(x)
    }
}

#[tactic(auto, unfolding(crate::specs::Price::price_bits))]
pub fn price_bits(b: Bond) -> u64
    ensures { result ≡ price_bits b }
{
    bits(price(b))
}

fn coupon_in_range(c: f64) -> bool
    ensures { result ≡ coupon_in_range c }
{
    (0.0 <= c) & (c <= 100.0)
}

fn yield_in_range(y: f64) -> bool
    ensures { result ≡ yield_in_range y }
{
    (-0.5 <= y) & (y <= 1.0)
}

fn payments_in_range(k: u8) -> bool
    ensures { result ≡ payments_in_range k }
{
    (k == 1) | (k == 2) | (k == 4) | (k == 12)
}

fn terms_in_range(t: Terms) -> bool
    ensures { result ≡ terms_in_range t }
{
    match t {
        Terms::Zero(y) => yield_in_range(y),
        Terms::Fixed(c, y) => coupon_in_range(c) & yield_in_range(y),
    }
}

// Whether a bond's periods, payments, coupon and yield lie in the ranges of the book.
#[tactic(auto, unfolding(crate::specs::Range::in_range))]
pub fn in_range(b: Bond) -> bool
    ensures { result ≡ in_range b }
{
    (1 <= b.periods) & (b.periods <= 240) & payments_in_range(b.payments) & terms_in_range(b.terms)
}
