//! The employee example: its rule book, its database on a flat shelf, and what book, shelf and queries answer.
#![tactic(auto)]

mod personnel;
mod show;

use anyhow::anyhow;
use book::book::Book;
use book::draft::Draft;
use flat_shelf::flat::FlatShelf;
use personnel::{facts, unfit_entries, unfit_facts, write_down};
use shelves::record::Record;
use shelves::stock::Shelf;
use show::{show_fact, show_query, show_rules};
use terms::constant::Constant;

fn main(rt: HostRuntime) -> anyhow::Result<()> {
    run(&rt)
}

fn run(rt: &HostRuntime) -> anyhow::Result<()> {
    let mut draft = Draft::new(rt.alloc())?;
    if write_down(&mut draft).is_err() {
        return Err(anyhow!("the rule book was refused"));
    }
    println!(rt; "refused entries")?;
    unfit_entries(rt, &mut draft)?;
    let book = draft.seal();
    show_rules(rt, &book)?;
    let mut records = [Record::blank(); 7];
    let mut shelf = FlatShelf::new(&mut records);
    fill(rt, &book, &mut shelf)?;
    println!(rt; "queries")?;
    // A book gives its queries by number.
    for number in 1..=book.queries() {
        show_query(rt, &book, &shelf, number)?;
    }
    Ok(())
}

/// Puts the facts on the shelf, one of them twice, and tries some that are refused.
fn fill<S: Shelf>(rt: &HostRuntime, book: &Book, shelf: &mut S) -> anyhow::Result<()> {
    println!(rt; "facts")?;
    for raw in facts() {
        match book.check::<Constant>(0, &raw) {
            Ok(fact) => show_fact(rt, &fact, shelf.put(fact.ground()))?,
            Err(refusal) => println!(rt; "fact: {refusal}")?,
        }
    }
    println!(rt; "refused facts")?;
    unfit_facts(rt, book)
}
