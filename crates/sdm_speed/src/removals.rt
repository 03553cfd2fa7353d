//! A removal from a list, whose elements move down one after another. `Vec::remove` moves them by blocks, through room
//! on the stack for one, and no clause of it says how large a block is.

ghost use Rattle.std.specs.Prelude.{◌≡◌, ◌+◌, ◌<◌, slice_index_or, vec_len, vec_capacity};
ghost use Rattle.std.specs.List.{remove};

/// Takes out the element at an index of a list; the later ones move down.
pub fn remove_at<T: Copy>(list: &mut Vec<T>, i: usize) -> T
    requires { i < vec_len list.old }
    ensures value { result ≡ slice_index_or list.old.items i result }
    ensures items { list.new.items ≡ remove list.old.items i }
    ensures len { vec_len list.new + 1 ≡ vec_len list.old }
    ensures room { vec_capacity list.new ≡ vec_capacity list.old }
{
    let taken = list[i];
    let last = list.len() - 1;
    // Below the last index the compiler sees that `i + 1` doesn't wrap, and leaves out the loop that copies upwards.
    if i < last {
        list.copy_within(i + 1..last + 1, i);
    }
    list.pop();
    taken
}
