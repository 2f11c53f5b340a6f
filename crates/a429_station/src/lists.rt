//! Lists that have room for further items.
ghost use Rattle.std.specs.Prelude.{◌≡◌, ◌++◌, ◌∷◌, ◌<◌, ◌≤◌, [], length, vec_capacity};

/// Adds an item to a list that has room for it.
pub fn put<T: Drop>(list: &mut Vec<T>, item: T)
    requires room { length list.old.items < vec_capacity list.old }
    ensures items { list.new.items ≡ list.old.items ++ item ∷ [] }
    ensures capacity { vec_capacity list.old ≤ vec_capacity list.new }
{
    let _ = list.push(item);
}
