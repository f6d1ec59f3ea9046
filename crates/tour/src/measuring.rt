// What a grader measured, as tests with their answers: a part that fits them.
use crate::yes_or_no;
use anyhow::Context;
use joined::Joined;
use labels::Labels;
use measure::{Ask, Kind, solve};
use millimetres::Millimetres;

// Prints the tests and an atom that answers them, or that there is none.
fn narrow<K: Kind>(rt: &impl Print, kind: &K, sort: u16, asks: &[Ask]) -> anyhow::Result<()> {
    for ask in asks {
        let answer = yes_or_no(ask.wanted);
        println!(rt; "  sort {sort}, test {}: {answer}", ask.test)?;
    }
    match solve(kind, sort, asks) {
        Some(atom) => println!(rt; "  atom {atom}")?,
        None => println!(rt; "  no atom")?,
    }
    Ok(())
}

pub fn show(rt: &impl Print) -> anyhow::Result<()> {
    let kind = Joined {
        first: Millimetres,
        second: Labels::new(8).context("no eight labels")?,
    };
    println!(rt; "millimetres (sort 0) joined with eight labels (sort 1)")?;
    println!(rt; "a hip of at most 950 mm, not at most 900 mm:")?;
    narrow(rt, &kind, 0, &[Ask::new(950, true), Ask::new(900, false)])?;
    println!(rt; "one of the labels 1 and 2, but not label 1:")?;
    narrow(rt, &kind, 1, &[Ask::new(6, true), Ask::new(2, false)])?;
    println!(rt; "at most 100 mm, and not at most 150 mm:")?;
    narrow(rt, &kind, 0, &[Ask::new(100, true), Ask::new(150, false)])
}
