//! Rows kept in order, for every kind of entry whose order obeys three laws.
#![tactic(auto)]

ghost use Rattle.std.specs.Prelude.{◌≡◌, ℕ, ◌≤◌, Bool, true, false, not, List, [], ◌∷◌, ◌++◌, length, ◌≢◌, Some, codes, decimal};
ghost use Rattle.ordered.specs.Order.{ahead, placed, Ordered, Fresh};
ghost use Rattle.ordered.specs.Rows.{Sent, Inserted, Removed};

use std::error::Error;
use std::fmt;

// Not `Ord`: an entry is ordered by a part of it, and `Ord` would have `==` read that part alone.
/// An entry with a place among others of its kind: of two with different keys, just one precedes the other.
pub trait Ranked {
    /// What the order looks at.
    ghost key: { Self → List ℕ };

    /// Whether the first comes before the second.
    ghost precedes: { Self → Self → Bool };

    /// Whether it precedes `other`.
    fn before(&self, other: &Self) -> bool
        ensures value { result ≡ precedes self.now other.now };

    ghost none_precedes_itself: { (x : Self) → precedes x x ≡ false };

    ghost just_one_precedes: { (x y : Self) → (key x ≢ key y) → precedes x y ≡ not (precedes y x) };

    ghost precedence_carries: { (x y z : Self) → precedes x y ≡ true → precedes y z ≡ true → precedes x z ≡ true };
}

/// How many of `row` stand ahead of `incoming`: the place of the first that it precedes, or the row's length.
pub fn place_of<T: Ranked>(row: &[T], incoming: &T) -> usize
    ensures value { result ≡ ahead T.precedes incoming.now row.now }
    ensures within { result ≤ length row.now }
{
    row.iter()
        .position(|other| incoming.before(other))
        .unwrap_or(row.len())
}

/// Moves the last entry of `row` to its place among the others. An empty row stays empty.
pub fn place_last<T: Ranked>(row: &mut [T])
    ensures after { (xs : List T) (x : T) → row.old ≡ xs ++ x ∷ [] → row.new ≡ placed T.precedes x xs }
    ensures empty { row.old ≡ [] → row.new ≡ [] }
    ensures ordered { (xs : List T) (x : T) → row.old ≡ xs ++ x ∷ [] → Ordered T.precedes xs → Fresh T.key x xs → Ordered T.precedes row.new }
{
    if let Some((last, others)) = row.split_last() {
        let place = place_of(others, last);
        row[place..].rotate_right(1);
    }
}

/// A row has no entry at this place.
#[derive(Clone, Copy, Debug, PartialEq, Eq)]
pub struct NoPlace {
    pub place: usize,
}

// The words are written out, since a derived text has no contract.
impl fmt::Display for NoPlace {
    ghost output = { λ e. Some (codes "there is no place " ++ decimal e.place) };

    fn fmt<W: fmt::Write>(&self, f: &mut fmt::Formatter<W>) -> fmt::Result {
        write!(f, "there is no place {}", self.place)
    }
}

impl Error for NoPlace {}

/// Moves the entry at `place` behind all the others, which keep their order. Where there is no such place it moves nothing.
pub fn send_last<T>(row: &mut [T], place: usize) -> Result<(), NoPlace>
    ensures answer { Sent row.old place result row.new }
{
    if place >= row.len() {
        return Err(NoPlace { place });
    }
    row[place..].rotate_left(1);
    Ok(())
}

// That a row is in order is a premise here and in the other calls, and no type: they serve any row.
/// Puts `entry` at its place, in memory that `row` has reserved. A full row is left as it is, and the entry handed back.
pub fn insert<T: Ranked>(row: &mut Vec<T>, entry: T) -> Result<(), T>
    ensures answer { Inserted T.precedes entry row.old result row.new }
    ensures ordered { Ordered T.precedes row.old.items → Fresh T.key entry row.old.items → Ordered T.precedes row.new.items }
{
    if row.len() == row.capacity() {
        return Err(entry);
    }
    // `Vec::insert` may ask for memory, and this does not.
    row.push_reserved(entry);
    place_last(row.as_mut_slice());
    Ok(())
}

/// Takes out the entry at `place`, and keeps the order of the others. Where there is no such place it answers `None`.
pub fn remove<T: Ranked>(row: &mut Vec<T>, place: usize) -> Option<T>
    ensures answer { Removed place row.old result row.new }
    ensures ordered { Ordered T.precedes row.old.items → Ordered T.precedes row.new.items }
{
    if place >= row.len() {
        return None;
    }
    Some(row.remove(place))
}
