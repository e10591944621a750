//! What the program prints.
use atoms::atom::{Fact, GroundAtom, Pattern};
use book::book::Book;
use fitting::binding::Binding;
use fitting::instance::bound_atom;
use matching::find::find_match;
use shelves::stock::Stock;
use shelves::taken::{Full, Taken};
use std::fmt;

/// Patterns, parted by commas.
#[derive(Clone, Copy)]
struct Listed<'a>(&'a [Pattern]);

impl fmt::Display for Listed<'_> {
    fn fmt<W: fmt::Write>(&self, f: &mut fmt::Formatter<W>) -> fmt::Result {
        for (i, pattern) in self.0.iter().enumerate() {
            if i > 0 {
                f.write_str(",")?;
            }
            pattern.fmt(f)?;
        }
        Ok(())
    }
}

/// Prints each rule with its guard.
pub(crate) fn show_rules(rt: &HostRuntime, book: &Book) -> anyhow::Result<()> {
    println!(rt; "rules")?;
    for (i, rule) in book.all_rules().iter().enumerate() {
        let body = Listed(rule.body());
        let head = rule.head();
        let guard = rule.guard();
        let guard_pattern = rule.guard_pattern();
        println!(rt;
            "{}: {body};{head} has its guard at {guard}: {guard_pattern}",
            i + 1
        )?;
    }
    Ok(())
}

/// Prints a fact with what the shelf answered.
pub(crate) fn show_fact(
    rt: &HostRuntime,
    fact: &Fact,
    answer: Result<Taken, Full>,
) -> anyhow::Result<()> {
    match answer {
        Ok(taken) => println!(rt; "{fact} {taken}")?,
        Err(full) => println!(rt; "{fact} {full}")?,
    }
    Ok(())
}

/// Prints where the query has its first match, or that it has none.
pub(crate) fn show_query<S: Stock>(
    rt: &HostRuntime,
    book: &Book,
    stock: &S,
    number: usize,
) -> anyhow::Result<()> {
    let Some(query) = book.query(number) else {
        return Ok(());
    };
    let patterns = query.as_slice();
    print!(rt; "{number}: {}", Listed(patterns))?;
    match find_match(stock, patterns) {
        Some(binding) => {
            print!(rt; " matches")?;
            show_places(rt, stock, patterns, binding)?;
            show_binding(rt, binding)?;
            println!(rt; "")?;
        }
        None => println!(rt; " has no match")?,
    }
    Ok(())
}

/// Prints the place of the atom that each pattern fits.
fn show_places<S: Stock>(
    rt: &HostRuntime,
    stock: &S,
    patterns: &[Pattern],
    binding: Binding,
) -> anyhow::Result<()> {
    for pattern in patterns {
        if let Some(atom) = bound_atom(binding, pattern)
            && let Some(place) = place_of(stock, &atom)
        {
            print!(rt; " at {place}")?;
        }
    }
    Ok(())
}

/// Prints what each variable is bound to.
fn show_binding(rt: &HostRuntime, binding: Binding) -> anyhow::Result<()> {
    for (i, held) in binding.iter().enumerate() {
        if let Some(term) = held {
            print!(rt; " v{} = {term}", i + 1)?;
        }
    }
    Ok(())
}

/// The lowest place at which the atom stands.
fn place_of<S: Stock>(stock: &S, atom: &GroundAtom) -> Option<usize> {
    (0..stock.len()).find(|place| stock.get(*place) == Some(*atom))
}
