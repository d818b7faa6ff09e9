//! Laying the arguments of a call in the slots of its frame.

ghost use Rattle.std.specs.Prelude.{◌≡◌, ◌+◌, ◌-◌, ◌≤◌, ◌<◌, ◌++◌, [], ◌∷◌, length, take, drop};
ghost use Rattle.std.specs.Prelude.{reverse, replicate, nat_lt, slice_index, false, if◌then◌else◌};

/// 0 in the places from `to` on, but for the first ones, up to `limit` of them.
pub fn zero_behind(slots: &mut [u64], to: usize, first: usize, limit: usize)
    requires inside { to + limit ≤ length slots.old }
    requires within { first ≤ limit }
    ensures length { length slots.new ≡ length slots.old }
    ensures above { drop (to + limit) slots.new ≡ drop (to + limit) slots.old }
    ensures laid { take limit (drop to slots.new)
        ≡ take first (drop to slots.old) ++ replicate (limit - first) 0 }
{
    for i in first..limit {
        slots[to + i] = 0;
    }
}

/// The number of its thread, where a root takes an argument, and 0 in the places behind it, up to
/// `limit` of them.
pub fn lay_root(slots: &mut [u64], number: u8, args: usize, to: usize, limit: usize)
    requires inside { to + limit ≤ length slots.old }
    requires fits { args ≤ limit }
    ensures length { length slots.new ≡ length slots.old }
    ensures above { drop (to + limit) slots.new ≡ drop (to + limit) slots.old }
    ensures laid { take limit (drop to slots.new) ≡
        (if nat_lt 0 args then number ∷ [] else [])
        ++ replicate (limit - length (if nat_lt 0 args then number ∷ [] else [])) 0 }
{
    if args > 0 {
        slots[to] = number as u64;
        zero_behind(slots, to, 1, limit);
    } else {
        zero_behind(slots, to, 0, limit);
    }
}

/// The `count` places from `from` on are copied in reverse order to those from `to` on, and 0s
/// behind them up to `limit`.
pub fn lay(slots: &mut [u64], from: usize, count: usize, to: usize, limit: usize)
    requires below { to + limit ≤ from }
    requires inside { from + count ≤ length slots.old }
    requires fits { count ≤ limit }
    ensures length { length slots.new ≡ length slots.old }
    ensures above { drop (to + limit) slots.new ≡ drop (to + limit) slots.old }
    ensures laid { take limit (drop to slots.new)
        ≡ reverse (take count (drop from slots.old)) ++ replicate (limit - count) 0 }
{
    for i in 0..count {
        slots[to + i] = slots[from + (count - 1 - i)];
    }
    zero_behind(slots, to, count, limit);
}

/// So many places from `at` on are copied to those from `into` on.
pub fn copy_slots(source: &[u64], at: usize, slots: &mut Vec<u64>, into: usize, size: usize)
    requires inside { at + size ≤ length source.now }
    requires room { into + size ≤ length slots.old.items }
    ensures length { length slots.new.items ≡ length slots.old.items }
    ensures above { drop (into + size) slots.new.items ≡ drop (into + size) slots.old.items }
    ensures copied { take size (drop into slots.new.items) ≡ take size (drop at source.now) }
{
    for i in 0..size {
        slots[into + i] = source[at + i];
    }
}

/// The receiver, which is the first local, where the method is not static.
pub fn receiver_at(slots: &[u64], at: usize, is_static: bool) -> u64
    requires { is_static ≡ false → at < length slots.now }
    ensures { result ≡ (if is_static then 0 else slice_index (drop at slots.now) 0) }
{
    if is_static { 0 } else { slots[at] }
}
