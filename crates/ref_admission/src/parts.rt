//! The front of a list.

ghost use Rattle.std.specs.Prelude.{◌≡◌, ◌≤◌, length, take};

/// The first items of a list, at most this many.
pub fn first_of<T>(list: &[T], most: usize) -> &[T]
    ensures value { result.now ≡ take most list.now }
    ensures few { length result.now ≤ most }
{
    if list.len() <= most {
        return list;
    }
    &list[..most]
}
