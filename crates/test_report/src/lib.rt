// What the programs that run outside cases share: reading a data file, comparing its records with what they expect, and printing counts.
#![tactic(auto)]

ghost use Rattle.std.specs.Prelude.{◌≡◌, ◌+◌, ◌<◌, ◌≤◌, ⊤, length, take, MatchOption};

use std::fs::File;
use std::io::Write;
use std::rt::Files;
use std::{io, str};

// Says on standard error why the file cannot be opened, in the system's words. What an io::Error has after them, the system's number, is left out.
fn complain(rt: &impl Eprint, name: &str, error: io::Error) {
    let mut text = [0u8; 300];
    let mut room = &mut text[..];
    let _ = write!(room, "{error}");
    let all = str::from_utf8(&text).unwrap_or("");
    let words = match all.split_once(" (os error ") {
        Some((before, _)) => before,
        None => all.trim_end_matches('\0'),
    };
    let _ = eprintln!(rt; "{name}: {words}");
}

// Opens the file to read; none, with the reason on standard error, where it cannot be opened. A name that is not text names no file.
fn open<R: Files + Eprint>(rt: &R, name: &[u8]) -> Option<R::File> {
    let Ok(name) = str::from_utf8(name) else {
        let _ = rt.eprintln("a name that is not text: cannot be opened");
        return None;
    };
    match File::open(rt, name) {
        Ok(file) => Some(file),
        Err(error) => {
            complain(rt, name, error);
            None
        }
    }
}

// Reads the file into buf, and answers how many bytes it has; 0, with the reason on standard error, where it cannot be opened.
pub fn load(rt: &(impl Files + Eprint), name: &[u8], buf: &mut [u8]) -> usize
    ensures in_bounds { result ≤ length buf.new }
    ensures prefix { result ≡ length (take result buf.new) }
{
    let Some(mut file) = open(rt, name) else {
        return 0;
    };
    reading::read_full(&mut file, buf)
}

// A line with a count.
pub fn total(rt: &impl Print, label: &[u8], n: u64) {
    let _ = rt.write_all(label);
    let _ = rt.println(n);
}

// A line with how many records agree, and how many there are.
pub fn share(rt: &impl Print, label: &[u8], agreeing: u64, all: u64) {
    let _ = rt.write_all(label);
    let _ = println!(rt; "{agreeing} of {all}");
}

// A line for a record that differs from what it expects.
pub fn difference(rt: &impl Print, record: u64) {
    let _ = println!(rt; "record {record} differs");
}

// A line with the name of the file that the lines after it are about.
pub fn heading(rt: &impl Print, name: &[u8]) {
    let _ = rt.write_all(name);
    let _ = rt.println("");
}

// A kind of record in a file of cases.
pub trait Record {
    // The first record of s, and what comes after it; none where there is no more.
    fn split(s: &[u8]) -> Option<(&[u8], &[u8])>
        ensures { MatchOption result ⊤ (λ p. (0 < length p.0.now) × (length p.0.now + length p.1.now ≤ length s.now)) };

    // The number that the record expects; none where it is too short to have one.
    fn expected(record: &[u8]) -> Option<u8>;

    // Whether what the record is about is as it expects.
    fn agrees(record: &[u8]) -> bool;
}

// The sum of a measure over the records; a record measures no more than it has bytes.
pub fn sum<R: Record, F: Fn(&[u8]) -> u64>(data: &[u8], measure: F) -> u64
    requires callable { F.IsAlwaysCallable measure }
    requires small { (s : _) (n : _) → 0 < length s.now → F.post measure s n → n ≤ length s.now }
    ensures { result ≤ length «data».now }
{
    let mut rest = data;
    let mut total: u64 = 0;
    while let Some((record, after)) = R::split(rest) {
        total += measure(record);
        rest = after;
    }
    total
}

// How many records pass the test.
pub fn count<R: Record, F: Fn(&[u8]) -> bool>(data: &[u8], test: F) -> u64
    requires { F.IsAlwaysCallable test }
    ensures { result ≤ length «data».now }
{
    sum::<R, _>(data, |record| u64::from(test(record)))
}

// A line with how many records there are.
pub fn records<R: Record>(rt: &impl Print, label: &[u8], data: &[u8]) {
    total(rt, label, count::<R, _>(data, |_| true));
}

// A line with how many of the records that expect the number agree, and how many there are.
pub fn agreement<R: Record>(rt: &impl Print, label: &[u8], data: &[u8], number: u8) {
    let expecting = count::<R, _>(data, |record| R::expected(record) == Some(number));
    let agreeing = count::<R, _>(data, |record| {
        R::expected(record) == Some(number) && R::agrees(record)
    });
    share(rt, label, agreeing, expecting);
}

// A line for each record that differs from what it expects, and one with how many do. There are no more records than bytes.
fn differences<R: Record>(rt: &impl Print, data: &[u8]) {
    let mut rest = data;
    let mut differing: u64 = 0;
    for i in 0..data.len() as u64 {
        let Some((record, after)) = R::split(rest) else {
            break;
        };
        if !R::agrees(record) {
            difference(rt, i);
            differing += 1;
        }
        rest = after;
    }
    total(rt, b"differences: ", differing);
}

// Reads a file of records, and prints its name, the counts, and the records that differ.
pub fn compare<R: Record, F: Fn(&[u8])>(
    rt: &(impl Files + Print + Eprint),
    name: &[u8],
    print_counts: F,
)
    requires { F.IsAlwaysCallable print_counts }
{
    // room for the longest file, and how much was read: nothing is allocated
    let mut buf = [0u8; 65536];
    let n = load(rt, name, &mut buf);
    let data = &buf[..n];
    heading(rt, name);
    print_counts(data);
    differences::<R>(rt, data);
}
