ghost use Rattle.std.specs.Prelude.{◌≡◌, ℕ, ◌+◌, ◌-◌, ◌<◌, ◌≤◌, ◌^◌, ◌++◌, length, map, take};
ghost use Rattle.std.specs.Prelude.{slice_index, vec_len, vec_capacity};
ghost use Rattle.replay_checkpoints.specs.Marks.{after_shift};

/// Moves the numbers from the index `from` on, none of them below `old`, as `old` moves to `new`.
pub fn shift_from(numbers: &mut Vec<u32>, from: usize, old: u32, new: u32)
    requires within { from ≤ vec_len numbers.old }
    requires after { (i : ℕ) → from ≤ i → i < vec_len numbers.old
        → old ≤ slice_index numbers.old.items i }
    requires fits { (i : ℕ) → from ≤ i → i < vec_len numbers.old
        → slice_index numbers.old.items i - old + new < 2 ^ 32 }
    ensures items { numbers.new.items ≡ take from numbers.old.items
        ++ after_shift numbers.old.items from old new }
    ensures len { vec_len numbers.new ≡ vec_len numbers.old }
    ensures capacity { vec_capacity numbers.new ≡ vec_capacity numbers.old }
{
    if old != new {
        shift_all(&mut numbers[from..], old, new);
    }
}

/// Moves each of the numbers, none of them below `old`, as `old` moves to `new`.
pub fn shift_all(numbers: &mut [u32], old: u32, new: u32)
    requires after { (i : ℕ) → i < length numbers.old → old ≤ slice_index numbers.old i }
    requires fits { (i : ℕ) → i < length numbers.old
        → slice_index numbers.old i - old + new < 2 ^ 32 }
    ensures { numbers.new ≡ map (λ number. number - old + new) numbers.old }
{
    for number in numbers.iter_mut() {
        *number = *number - old + new;
    }
}
