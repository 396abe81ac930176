// The table that every case starts from, and a change of one of its fields.
use pricer::{Bond, Terms};
use table::{Job, Machine, Message, Table};

// With two payments a year.
fn bond(periods: u8, terms: Terms) -> Bond {
    Bond {
        periods,
        payments: 2,
        terms,
    }
}

// Entries 0 and 2 with a fixed coupon, entry 1 a zero.
fn bonds() -> [Bond; 64] {
    let mut all = [pricer::NO_BOND; 64];
    all[0] = bond(2, Terms::Fixed(4.0, 0.5));
    all[1] = bond(2, Terms::Zero(0.5));
    all[2] = bond(240, Terms::Fixed(100.0, 1.0));
    all
}

// Job 0 open and moving from 1 to 2, job 1 priced and on 3, job 2 not admitted.
fn jobs() -> [Job; 64] {
    let mut all = [table::NO_JOB; 64];
    all[0] = Job {
        state: table::OPEN,
        replica: 1,
        moving: 1,
        holder: 1,
        thief: 2,
        ..table::NO_JOB
    };
    all[1] = Job {
        state: table::PRICED,
        replica: 2,
        holder: 3,
        price: 7,
        ..table::NO_JOB
    };
    all
}

// Machines 0, 1 and 2 alive and 3 dead; 1 has a reserved copy for 2 and waits on 0, 2 runs a copy.
fn machines() -> [Machine; 16] {
    let mut all = [table::NO_MACHINE; 16];
    all[0] = Machine {
        alive: 1,
        ..table::NO_MACHINE
    };
    all[1] = Machine {
        alive: 1,
        reserved_replica: 1,
        reserved_thief: 2,
        waits: 1,
        ..table::NO_MACHINE
    };
    all[2] = Machine {
        alive: 1,
        running_job: 1,
        running_replica: 2,
        ..table::NO_MACHINE
    };
    all
}

// FISH from 2 to 1, AUTH from 0 to 1, RESULT from 2 to 0.
fn messages() -> [Message; 128] {
    let mut all = [table::NO_MESSAGE; 128];
    all[0] = Message {
        kind: table::FISH,
        from: 2,
        to: 1,
        ..table::NO_MESSAGE
    };
    all[1] = Message {
        kind: table::AUTH,
        to: 1,
        replica: 1,
        thief: 2,
        ..table::NO_MESSAGE
    };
    all[2] = Message {
        kind: table::RESULT,
        from: 2,
        job: 1,
        replica: 2,
        price: 5,
        ..table::NO_MESSAGE
    };
    all
}

// Four machines and three entries. The root was told of machine 3, so the largest replica number is 2.
// The root's pool has job 1 with replica 2, that of machine 2 has job 0 with replica 1.
pub fn sound() -> Table {
    let mut told = [0u8; 256];
    told[3] = 1;
    let mut pools = [0u8; 1024];
    pools[1] = 2;
    pools[128] = 1;
    Table {
        machine_count: 4,
        entry_count: 3,
        bonds: bonds(),
        jobs: jobs(),
        machines: machines(),
        told,
        pools,
        in_flight: 3,
        messages: messages(),
        open_jobs: 1,
    }
}

// 0 is +0, 1 is -0, 2 the number next below 0, 3 is 1, 4 the next above it, 5 is 100, 6 the next above it; 8 is the number next below -0.5,
// 9 is -0.5, 10 the number next above it; any other is a NaN.
fn rate(value: u8) -> f64 {
    match value {
        0 => 0.0,
        1 => -0.0,
        2 => -5e-324,
        3 => 1.0,
        4 => 1.0000000000000002,
        5 => 100.0,
        6 => 100.00000000000001,
        8 => -0.5000000000000001,
        9 => -0.5,
        10 => -0.49999999999999994,
        _ => 0.0 / 0.0,
    }
}

// Fields 4 to 7 and 30: the periods, a zero's yield, a fixed coupon bond's coupon, a fixed coupon bond's yield, the payments.
fn change_bond(bond: &mut Bond, field: u8, value: u8) {
    match field {
        4 => bond.periods = value,
        5 => bond.terms = Terms::Zero(rate(value)),
        6 => bond.terms = Terms::Fixed(rate(value), 0.5),
        7 => bond.terms = Terms::Fixed(4.0, rate(value)),
        _ => bond.payments = value,
    }
}

// Fields 8 to 13, in the order of the struct.
fn change_job(job: &mut Job, field: u8, value: u8) {
    match field {
        8 => job.state = value,
        9 => job.replica = value,
        10 => job.moving = value,
        11 => job.holder = value,
        12 => job.thief = value,
        _ => job.price = value as u64,
    }
}

// Fields 14 to 20, in the order of the struct.
fn change_machine(machine: &mut Machine, field: u8, value: u8) {
    match field {
        14 => machine.alive = value,
        15 => machine.reserved_job = value,
        16 => machine.reserved_replica = value,
        17 => machine.reserved_thief = value,
        18 => machine.running_job = value,
        19 => machine.running_replica = value,
        _ => machine.waits = value,
    }
}

// Fields 23 to 29, in the order of the struct.
fn change_message(message: &mut Message, field: u8, value: u8) {
    match field {
        23 => message.kind = value,
        24 => message.from = value,
        25 => message.to = value,
        26 => message.job = value,
        27 => message.replica = value,
        28 => message.thief = value,
        _ => message.price = value as u64,
    }
}

// Changes one field: its number, the place in its array, and the new value. A field of number 0 changes nothing, and so does a place past the array's
// end. A field is a number and not an enum, since it is a byte of the cases.
pub fn change(t: &mut Table, field: u8, place: usize, value: u8) {
    match field {
        1 => t.machine_count = value,
        2 => t.entry_count = value,
        3 => t.in_flight = value,
        4..=7 | 30 => {
            if let Some(bond) = t.bonds.get_mut(place) {
                change_bond(bond, field, value);
            }
        }
        8..=13 => {
            if let Some(job) = t.jobs.get_mut(place) {
                change_job(job, field, value);
            }
        }
        14..=20 => {
            if let Some(machine) = t.machines.get_mut(place) {
                change_machine(machine, field, value);
            }
        }
        21 => {
            if let Some(told) = t.told.get_mut(place) {
                *told = value;
            }
        }
        22 => {
            if let Some(cell) = t.pools.get_mut(place) {
                *cell = value;
            }
        }
        23..=29 => {
            if let Some(message) = t.messages.get_mut(place) {
                change_message(message, field, value);
            }
        }
        31 => t.open_jobs = value,
        _ => {}
    }
}
