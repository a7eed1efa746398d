ghost use Rattle.std.specs.Prelude.{◌≡◌, ◌+◌, ◌-◌, ◌≤◌, List, [], ◌++◌, length, take, drop};
ghost use Rattle.std.specs.Prelude.{vec_len, vec_capacity};
ghost use Rattle.std.specs.List.{splice};

/// Replaces the items from `from` up to `to`, which are dropped, by those of `middle`, which is
/// left empty.
///
/// Unlike `Vec::splice` it takes no memory: once an edit is made no memory may be refused. The
/// caller has to reserve room for what `items` will hold. As many last items as both have are
/// exchanged one by one; then one turn moves these, and what follows them, by the difference in
/// length.
pub fn splice<T: Drop>(items: &mut Vec<T>, from: usize, to: usize, middle: &mut Vec<T>)
    requires ordered { from ≤ to }
    requires within { to ≤ vec_len items.old }
    requires room { vec_len items.old + vec_len middle.old ≤ vec_capacity items.old + (to - from) }
    ensures items { items.new.items ≡ splice items.old.items from to middle.old.items }
    ensures len { vec_len items.new + (to - from) ≡ vec_len items.old + vec_len middle.old }
    ensures capacity { vec_capacity items.old ≤ vec_capacity items.new }
    ensures emptied { middle.new.items ≡ [] }
    ensures kept_room { vec_capacity middle.new ≡ vec_capacity middle.old }
{
    let common = middle.len().min(to - from);
    let more = middle.len() - common;
    items[to - common..to].swap_with_slice(&mut middle[more..]);
    middle.truncate(more);
    take_out(items, from, to - common);
    bring_in(items, from, middle);
}

/// Drops the items from `from` up to `to`.
fn take_out<T: Drop>(items: &mut Vec<T>, from: usize, to: usize)
    requires ordered { from ≤ to }
    requires within { to ≤ vec_len items.old }
    ensures items { items.new.items ≡ take from items.old.items ++ drop to items.old.items }
    ensures len { vec_len items.new + (to - from) ≡ vec_len items.old }
    ensures capacity { vec_capacity items.old ≤ vec_capacity items.new }
{
    let len = items.len();
    turn(items.as_mut_slice(), from, len, to - from);
    items.truncate(len - (to - from));
}

/// Puts `middle` before the items from `from` on, and leaves it empty.
fn bring_in<T>(items: &mut Vec<T>, from: usize, middle: &mut Vec<T>)
    requires within { from ≤ vec_len items.old }
    requires room { vec_len items.old + vec_len middle.old ≤ vec_capacity items.old }
    ensures items { items.new.items
        ≡ take from items.old.items ++ (middle.old.items ++ drop from items.old.items) }
    ensures len { vec_len items.new ≡ vec_len items.old + vec_len middle.old }
    ensures capacity { vec_capacity items.old ≤ vec_capacity items.new }
    ensures emptied { middle.new.items ≡ [] }
    ensures kept_room { vec_capacity middle.new ≡ vec_capacity middle.old }
{
    let old = items.len();
    match items.append(middle) {
        Ok(()) => {}
        Err(_) => unreachable!(),
    }
    let len = items.len();
    turn(items.as_mut_slice(), from, len, old - from);
}

/// Moves the first `count` of the items from `from` up to `to` behind the others of them.
fn turn<T>(items: &mut [T], from: usize, to: usize, count: usize)
    requires ordered { from + count ≤ to }
    requires within { to ≤ length items.old }
    ensures items { (a b c d : List T) → items.old ≡ a ++ (b ++ (c ++ d)) → length a ≡ from
        → length b ≡ count → from + count + length c ≡ to → items.new ≡ a ++ (c ++ (b ++ d)) }
{
    items[from..to].rotate_left(count);
}
