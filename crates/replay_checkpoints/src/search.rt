ghost use Rattle.std.specs.Prelude.{ℕ, ◌<◌, ◌≤◌, length, slice_index};
ghost use Rattle.std.specs.List.Sorted.{IsStrictlyIncreasing};

/// The index of the first of the ascending places that isn't before `place`, or how many there are.
pub fn first_from(places: &[u32], place: u32) -> usize
    requires rising { IsStrictlyIncreasing places.now }
    ensures within { result ≤ length places.now }
    ensures before { (k : ℕ) → k < result → slice_index places.now k < place }
    ensures after { (k : ℕ) → result ≤ k → k < length places.now
        → place ≤ slice_index places.now k }
{
    places.partition_point(|other| *other < place)
}

/// The index of the last of the ascending places that isn't after `place`.
pub fn last_to(places: &[u32], place: u32) -> usize
    requires rising { IsStrictlyIncreasing places.now }
    requires some { 0 < length places.now }
    requires begun { slice_index places.now 0 ≤ place }
    ensures within { result < length places.now }
    ensures before { (k : ℕ) → k ≤ result → slice_index places.now k ≤ place }
    ensures after { (k : ℕ) → result < k → k < length places.now
        → place < slice_index places.now k }
{
    places.partition_point(|other| *other <= place) - 1
}
