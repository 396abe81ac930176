// Check 9 on damaged tables. Each case changes some fields of one table that passes, and prints its label and the answer, 0 or 9.
// Each condition of row 9 has cases that it refuses, and beside them cases that differ little and pass.
// tools/validity_cases.py writes the cases, and what is expected of each by document 01's text.
//
// A case has 72 bytes: a label of 40, filled up with spaces; eight changes of 4, those not used 0.
#![tactic(auto)]

mod tables;

use table::Table;

// The table with the changes of a case, each of a field, the place in its array with the low byte first, and the new value.
fn damaged(changes: &[u8]) -> Table {
    let mut t = tables::sound();
    let (changes, _) = changes.as_chunks::<4>();
    for &[field, low, high, value] in changes {
        tables::change(
            &mut t,
            field,
            u16::from_le_bytes([low, high]) as usize,
            value,
        );
    }
    t
}

// The label, and the answer that check 9 has for the table.
fn try_case(rt: &impl Print, case: &[u8; 72]) {
    let (label, changes) = case.split_at(40);
    let _ = rt.write_all(label);
    if validity::table_ok(damaged(changes)) {
        let _ = rt.println("0");
    } else {
        let _ = rt.println("9");
    }
}

fn main(rt: HostRuntime) {
    // room for the file, and how much was read: nothing is allocated
    let mut buf = [0u8; 65536];
    let n = test_report::load(&rt, b"cases.bin", &mut buf);
    let (cases, _) = buf[..n].as_chunks::<72>();
    for case in cases {
        try_case(&rt, case);
    }
}
