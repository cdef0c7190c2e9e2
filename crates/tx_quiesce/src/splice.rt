//! Lists of which the front is kept and a later part is reused.
ghost use Rattle.std.specs.Prelude.{◌≡◌, ◌≤◌, ◌+◌, ◌++◌, length, take, drop, vec_len, vec_capacity, OnOk};

use std::alloc::AllocError;

/// Puts items behind others; there is room for them.
fn append_within<T: Drop>(items: &mut Vec<T>, mut more: Vec<T>)
    requires { vec_len items.old + vec_len more ≤ vec_capacity items.old }
    ensures items { items.new.items ≡ items.old.items ++ more.items }
    ensures len { vec_len items.new ≡ vec_len items.old + vec_len more }
    ensures capacity { vec_capacity items.old ≤ vec_capacity items.new }
{
    match items.append(&mut more) {
        Ok(()) => {}
        Err(_) => unreachable!(),
    }
}

/// Reserves room for two lists more. Its only error is want of memory.
pub fn reserve_for<T>(items: &mut Vec<T>, first: &Vec<T>, later: &Vec<T>) -> Result<(), AllocError>
    ensures items { items.new.items ≡ items.old.items }
    ensures len { vec_len items.new ≡ vec_len items.old }
    ensures room { OnOk result (vec_len items.new + vec_len first.now + vec_len later.now ≤ vec_capacity items.new) }
{
    match first.len().checked_add(later.len()) {
        Some(more) => items.reserve(more),
        None => Err(AllocError),
    }
}

/// Exchanges a part of these items, behind the first ones, for others.
fn swap_part<T>(items: &mut [T], kept: usize, other: &mut [T])
    requires { kept + length other.old ≤ length items.old }
    ensures { items.new ≡ take kept items.old ++ (other.old ++ drop (length other.old) (drop kept items.old)) }
{
    let end = kept + other.len();
    items[kept..end].swap_with_slice(other);
}

/// Puts items in the place of as many others behind the first ones.
fn overwrite_items<T: Drop>(items: &mut Vec<T>, kept: usize, mut middle: Vec<T>)
    requires { kept + length middle.items ≤ length items.old.items }
    ensures items { items.new.items ≡ take kept items.old.items ++ (middle.items ++ drop (length middle.items) (drop kept items.old.items)) }
    ensures len { vec_len items.new ≡ vec_len items.old }
    ensures capacity { vec_capacity items.old ≤ vec_capacity items.new }
{
    swap_part(items.as_mut_slice(), kept, middle.as_mut_slice());
}

/// Turns the items behind the first ones round: so many from their front to the end.
fn rotate_part<T>(items: &mut [T], kept: usize, count: usize)
    requires { kept + count ≤ length items.old }
    ensures { items.new ≡ take kept items.old ++ (drop count (drop kept items.old) ++ take count (drop kept items.old)) }
{
    items[kept..].rotate_left(count);
}

/// The same for a `Vec`, which it leaves its room.
fn rotate_items<T>(items: &mut Vec<T>, kept: usize, count: usize)
    requires { kept + count ≤ vec_len items.old }
    ensures items { items.new.items ≡ take kept items.old.items ++ (drop count (drop kept items.old.items) ++ take count (drop kept items.old.items)) }
    ensures len { vec_len items.new ≡ vec_len items.old }
    ensures capacity { vec_capacity items.old ≤ vec_capacity items.new }
{
    rotate_part(items.as_mut_slice(), kept, count);
}

/// Keeps the first items, puts others behind them, then a part of those that stood further behind, and others at the end. There
/// is room for all, so it takes no memory. The first items stay where they lie.
pub fn reuse_items<T: Drop>(
    items: &mut Vec<T>,
    kept: usize,
    middle: Vec<T>,
    from: usize,
    count: usize,
    later: Vec<T>,
)
    requires order { kept ≤ from }
    requires within { from + count ≤ vec_len items.old }
    requires room { kept + vec_len middle + count + vec_len later ≤ vec_capacity items.old }
    ensures { items.new.items ≡ take kept items.old.items ++ (middle.items ++ (take count (drop from items.old.items) ++ later.items)) }
{
    items.truncate(from + count);
    if middle.len() == from - kept {
        overwrite_items(items, kept, middle);
    } else {
        rotate_items(items, kept, from - kept);
        items.truncate(kept + count);
        append_within(items, middle);
        rotate_items(items, kept, count);
    }
    append_within(items, later);
}
