// Compares the verdicts on identifiers, the readings of terms and the prices of bonds with stored ones: check digits by two programs of other
// authorship, prices by a C program and by exact rational arithmetic, forms and refusals of terms by the scripts that made the cases
// (tools/make_isin_vectors.py, tools/make_price_vectors.py). Prints, for each class of the records of a file, how many agree and how
// many there are.
//
// A record has 32 bytes, of which the first is its class.
// Of an identifier the class is the expected verdict; then come the length of the text, and the text filled up with 0.
// Of a term the class is 1 for a zero-coupon bond, 2 for a fixed coupon bond, 7 for a refusal; then come the 19 bytes of the term,
// 4 bytes 0, and the bits of the expected price, little-endian, 0 for a refusal.
#![tactic(auto)]

use pricer::{Bond, Terms};
use std::rt::Files;
use test_report::Record;

// The classes of a term. A file may have any other byte there, so they are numbers.
const ZERO: u8 = 1;

const FIXED: u8 = 2;

const REFUSED: u8 = 7;

// The record of an identifier.
struct Identifier;

impl Record for Identifier {
    fn split(s: &[u8]) -> Option<(&[u8], &[u8])> {
        s.split_at_checked(32)
    }

    fn expected(record: &[u8]) -> Option<u8> {
        record.first().copied()
    }

    fn agrees(record: &[u8]) -> bool {
        let &[verdict, length, ref text @ ..] = record else {
            return false;
        };
        text.get(..length as usize)
            .is_some_and(|text| refusal::answer(isin::verdict(text)) == verdict)
    }
}

// The record of a term.
struct Term;

impl Record for Term {
    fn split(s: &[u8]) -> Option<(&[u8], &[u8])> {
        s.split_at_checked(32)
    }

    fn expected(record: &[u8]) -> Option<u8> {
        record.first().copied()
    }

    fn agrees(record: &[u8]) -> bool {
        if record.len() != 32 {
            return false;
        }
        match book_term::read(&record[1..20]) {
            None => record[0] == REFUSED,
            Some(b) => {
                record[0] == class_of(b) && endian::u64_at(record, 24) == pricer::price_bits(b)
            }
        }
    }
}

// The class of a bond that was read.
fn class_of(b: Bond) -> u8 {
    match b.terms {
        Terms::Zero(_) => ZERO,
        Terms::Fixed(_, _) => FIXED,
    }
}

// Compares the identifiers of a file.
fn identifiers(rt: &(impl Files + Print + Eprint), name: &[u8]) {
    test_report::compare::<Identifier, _>(rt, name, |data| {
        test_report::agreement::<Identifier>(rt, b"verdict 0: ", data, 0);
        test_report::agreement::<Identifier>(rt, b"verdict 4: ", data, 4);
        test_report::agreement::<Identifier>(rt, b"verdict 5: ", data, 5);
        test_report::records::<Identifier>(rt, b"records: ", data);
    });
}

// Compares the terms of a file.
fn terms(rt: &(impl Files + Print + Eprint), name: &[u8]) {
    test_report::compare::<Term, _>(rt, name, |data| {
        test_report::agreement::<Term>(rt, b"zero-coupon: ", data, ZERO);
        test_report::agreement::<Term>(rt, b"fixed coupon: ", data, FIXED);
        test_report::agreement::<Term>(rt, b"refused: ", data, REFUSED);
        test_report::records::<Term>(rt, b"records: ", data);
    });
}

fn main(rt: HostRuntime) {
    identifiers(&rt, b"identifiers_1.bin");
    identifiers(&rt, b"identifiers_2.bin");
    terms(&rt, b"terms.bin");
    terms(&rt, b"prices.bin");
    terms(&rt, b"prices_by_payments.bin");
}
