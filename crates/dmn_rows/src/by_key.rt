//! Lists in strictly ascending order of a key: a look-up, a put and a drop.

ghost use Rattle.std.specs.Prelude.{◌≡◌, ◌<◌, ◌≤◌, Bool, IsTrue, filter, find, length, not, is_ok, is_some, if◌then◌else◌};
ghost use Rattle.std.specs.Option.{option_copied};
ghost use Rattle.dmn_rows.specs.Sorted.{Ascends, IsKey, add_sorted, put_sorted, place_in, passes_at};

use std::alloc::AllocError;

/// A value with a key, by which lists of such values ascend.
pub trait ByKey<K: Ord>: Copy {
    // The key of a value.
    ghost key_of: { Self → K };

    // A value has a key.
    ghost has: { K → Self → Bool };

    /// The key of the value.
    fn key(&self) -> &K
        ensures { result.now ≡ key_of self.now };

    /// Whether this is the key of the value.
    fn has_key(&self, key: &K) -> bool
        ensures { result ≡ has key.now self.now };

    // Only equal keys tie.
    ghost is_key: { IsKey K.cmp key_of has };
}

// How many values have a lower key. The place is found by halving.
fn place_of<K: Ord, V: ByKey<K>>(values: &[V], key: &K) -> usize
    requires { Ascends K.cmp V.key_of values.now }
    ensures place { result ≡ place_in K.cmp V.key_of key.now values.now }
    ensures within { result ≤ length values.now }
{
    values.partition_point(|value| value.key().cmp(key).is_lt())
}

// Whether the value at a place has the key.
fn has_key_at<K: Ord, V: ByKey<K>>(values: &[V], at: usize, key: &K) -> bool
    ensures has { result ≡ passes_at (V.has key.now) values.now at }
    ensures within { IsTrue result → at < length values.now }
{
    match values.get(at) {
        None => false,
        Some(value) => value.has_key(key),
    }
}

/// The value with the key.
pub fn find_sorted<'a, K: Ord, V: ByKey<K>>(values: &'a [V], key: &K) -> Option<&'a V>
    requires { Ascends K.cmp V.key_of values.now }
    ensures { option_copied result ≡ find (V.has key.now) values.now }
{
    let at = place_of(values, key);
    if has_key_at(values, at, key) {
        Some(&values[at])
    } else {
        None
    }
}

/// Adds a value in its place, or replaces the one with its key. Without memory nothing changes.
pub fn put_sorted<K: Ord, V: ByKey<K>>(values: &mut Vec<V>, value: V) -> Result<(), AllocError>
    requires { Ascends K.cmp V.key_of values.old.items }
    ensures put { values.new.items
        ≡ (if is_ok result then put_sorted K.cmp V.key_of value values.old.items else values.old.items) }
    ensures ascends { Ascends K.cmp V.key_of values.new.items }
{
    let at = place_of(values, value.key());
    if has_key_at(values, at, value.key()) {
        values[at] = value;
        Ok(())
    } else {
        Ok(values.insert(at, value)?)
    }
}

/// Adds a value in its place, unless its key is there. Without memory nothing changes.
pub fn add_sorted<K: Ord, V: ByKey<K>>(values: &mut Vec<V>, value: V) -> Result<(), AllocError>
    requires { Ascends K.cmp V.key_of values.old.items }
    ensures add { values.new.items
        ≡ (if is_ok result then add_sorted K.cmp V.key_of V.has value values.old.items else values.old.items) }
    ensures ascends { Ascends K.cmp V.key_of values.new.items }
{
    let at = place_of(values, value.key());
    if has_key_at(values, at, value.key()) {
        Ok(())
    } else {
        Ok(values.insert(at, value)?)
    }
}

/// Takes the value with the key away, and tells whether it was there. This takes no memory.
pub fn drop_sorted<K: Ord, V: ByKey<K>>(values: &mut Vec<V>, key: &K) -> bool
    requires { Ascends K.cmp V.key_of values.old.items }
    ensures was { result ≡ is_some (find (V.has key.now) values.old.items) }
    ensures rest { values.new.items ≡ filter (λ v. not (V.has key.now v)) values.old.items }
    ensures ascends { Ascends K.cmp V.key_of values.new.items }
{
    let at = place_of(values, key);
    let was = has_key_at(values, at, key);
    if was {
        values.remove(at);
    }
    was
}
