//! Atoms in short.
use reading::raw::{RawAtom, RawTerm};

pub fn v(number: u32) -> RawTerm {
    RawTerm::Variable(number)
}

pub fn k(number: u32) -> RawTerm {
    RawTerm::Constant(number)
}

pub fn n(number: u32) -> RawTerm {
    RawTerm::Null(number)
}

pub fn one(predicate: usize, a: RawTerm) -> RawAtom {
    RawAtom::new(predicate, &[a])
}

pub fn two(predicate: usize, a: RawTerm, b: RawTerm) -> RawAtom {
    RawAtom::new(predicate, &[a, b])
}

pub fn three(predicate: usize, a: RawTerm, b: RawTerm, c: RawTerm) -> RawAtom {
    RawAtom::new(predicate, &[a, b, c])
}
