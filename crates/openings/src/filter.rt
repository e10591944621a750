//! A filter that says of most atoms that they have not been met.
ghost use Rattle.std.specs.Prelude.{All, ◌*◌, ◌≤◌, ◌≡◌, ◌<◌, true, false, map, length, slice_index_or, slice_set};
ghost use Rattle.atoms.specs.Meaning.{atom_meant};
ghost use Rattle.openings.specs.Filters.{weights, weighed, slot_of};
ghost use Rattle.terms.specs.Meaning.{term_meant};

use atoms::atom::GroundAtom;
use terms::term::Term;

/// An array of marks and no set, since an opening may not want for memory. How many slots there are: a prime, so that few atoms of a regular catalogue share one.
pub(crate) const SLOTS: usize = 65521;

/// The number that the term stands for.
fn number(term: Term) -> u64
    ensures value { result ≡ term_meant term }
    ensures bound { result < 2000000 }
{
    match term {
        Term::Constant(constant) => u64::from(constant.number()),
        Term::Null(null) => 1_000_000 + u64::from(null.number()),
    }
}

/// The weights of the terms, first to fourth.
const WEIGHTS: [u64; 4] = [7_649, 63_191, 24_829, 41_221];

/// The terms, each times its weight.
fn weigh(weights: &[u64], terms: &[Term]) -> u64
    requires few { length terms.now ≤ 4 }
    requires light { All (λ w. w < 100000) weights.now }
    ensures value { result ≡ weighed weights.now (map term_meant terms.now) }
    ensures bound { result ≤ length terms.now * 200000000000 }
{
    match (weights, terms) {
        ([weight, weights @ ..], [term, terms @ ..]) => {
            number(*term) * *weight + weigh(weights, terms)
        }
        _ => 0,
    }
}

/// The atom's slot.
fn slot(atom: &GroundAtom) -> usize
    ensures value { result ≡ slot_of (atom_meant atom.now) }
    ensures bound { result < 65521 }
{
    let predicate = atom.predicate.number() as u64;
    ((predicate * 36_167 + weigh(&WEIGHTS, atom.terms.as_slice())) % SLOTS as u64) as usize
}

/// Whether the atom's slot is marked. If not, the atom was never marked.
pub(crate) fn is_marked(seen: &[bool], atom: &GroundAtom) -> bool
    requires { length seen.now ≡ 65521 }
    ensures { result ≡ slice_index_or seen.now (slot_of (atom_meant atom.now)) false }
{
    seen[slot(atom)]
}

/// Marks the atom's slot.
pub(crate) fn mark(seen: &mut [bool], atom: &GroundAtom)
    requires { length seen.old ≡ 65521 }
    ensures { seen.new ≡ slice_set seen.old (slot_of (atom_meant atom.now)) true }
{
    seen[slot(atom)] = true;
}
