ghost use Rattle.std.specs.Prelude.{◌≡◌, List, length};
ghost use Rattle.search_sorted.specs.Order.{TotalOrder, NeverDescends, compare_at};

use std::cmp::Ordering;

/// An ordered sequence: a list of keys under a total order, never descending.
pub trait IndexOrd {
    type Key;

    ghost keys: { Self → List Self.Key };

    ghost order: { TotalOrder Self.Key };

    ghost rising: { (s : Self) → NeverDescends order (keys s) };

    /// How many keys there are.
    fn index_len(&self) -> usize
        ensures { result ≡ length (keys self.now) };

    /// How the key at a place compares with the needle, or none past the end.
    fn index_cmp(&self, place: usize, needle: &Self::Key) -> Option<Ordering>
        ensures { result ≡ compare_at order (keys self.now) place needle.now };
}
