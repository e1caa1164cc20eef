//! `nom_vectors`: runs the worked rows of nom, each by the parsers that it names, and prints for each
//! whether it holds, in the order of their numbers, and then how many don't.
//!
//! The status is 0 where each row holds; 1 where one is wrong, or a write fails. A row that runs
//! out of memory is wrong.
#![tactic(auto)]

mod answers;
mod bits;
mod branch;
mod bytes;
mod character;
mod combinator;
mod grown;
mod multi;
mod number;
mod precedence;
mod traits;

use std::alloc::Global;
use std::process::ExitCode;
use std::{array, io};

/// The greatest number of a row.
const LAST: usize = 33;

/// How a row ended.
#[derive(Clone, Copy)]
enum Outcome {
    /// No row of this number is run here.
    Absent,
    Holds,
    Wrong,
}

impl Outcome {
    fn of(holds: bool) -> Outcome {
        if holds {
            Outcome::Holds
        } else {
            Outcome::Wrong
        }
    }
}

/// Runs the row of a number.
fn run_row(alloc: Global, number: usize) -> Outcome {
    match number {
        1 => Outcome::of(number::row_1(alloc)),
        2 => Outcome::of(number::row_2(alloc)),
        3 => Outcome::of(branch::row_3(alloc)),
        4 => Outcome::of(multi::row_4(alloc)),
        5 => Outcome::of(multi::row_5(alloc)),
        6 => Outcome::of(bytes::row_6(alloc)),
        7 => Outcome::of(bits::row_7()),
        8 => Outcome::of(bits::row_8(alloc)),
        9 => Outcome::of(bits::row_9()),
        10 => Outcome::of(number::row_10(alloc)),
        11 => Outcome::of(character::row_11(alloc)),
        12 => Outcome::of(bytes::row_12(alloc)),
        13 => Outcome::of(multi::row_13(alloc)),
        14 => Outcome::of(multi::row_14(alloc)),
        15 => Outcome::of(combinator::row_15(alloc)),
        16 => Outcome::of(multi::row_16(alloc)),
        17 => Outcome::of(character::row_17(alloc)),
        18 => Outcome::of(character::row_18(alloc)),
        19 => Outcome::of(combinator::row_19()),
        20 => Outcome::of(traits::row_20(alloc)),
        21 => Outcome::of(traits::row_21()),
        22 => Outcome::of(number::row_22(alloc)),
        23 => Outcome::of(bytes::row_23(alloc)),
        24 => Outcome::of(multi::row_24(alloc)),
        25 => Outcome::of(branch::row_25(alloc)),
        26 => Outcome::of(number::row_26()),
        27 => Outcome::of(combinator::row_27(alloc)),
        28 => Outcome::of(combinator::row_28()),
        29 => Outcome::of(branch::row_29()),
        33 => Outcome::of(precedence::row_33(alloc)),
        _ => Outcome::Absent,
    }
}

/// How many rows are wrong.
fn count_wrong(rows: &[Outcome]) -> usize {
    rows.iter()
        .filter(|row| matches!(row, Outcome::Wrong))
        .count()
}

fn status_of(wrong: usize) -> u8 {
    if wrong == 0 { 0 } else { 1 }
}

fn print_rows(rt: &impl Print, rows: &[Outcome]) -> io::Result<()> {
    for (number, row) in rows.iter().enumerate() {
        match row {
            Outcome::Absent => {}
            Outcome::Holds => println!(rt; "row {number} ok")?,
            Outcome::Wrong => println!(rt; "row {number} wrong")?,
        }
    }
    Ok(())
}

/// Runs and prints each row; answers the status.
fn answer(rt: &(impl Print + Alloc<A = Global>)) -> io::Result<u8> {
    let alloc = rt.alloc();
    let rows: [Outcome; LAST + 1] = array::from_fn(|number| run_row(alloc, number));
    print_rows(rt, &rows)?;
    let wrong = count_wrong(&rows);
    println!(rt; "wrong {wrong}")?;
    Ok(status_of(wrong))
}

fn main(rt: HostRuntime) -> ExitCode {
    match answer(&rt) {
        Ok(status) => ExitCode::from(status),
        Err(_) => ExitCode::from(1),
    }
}
