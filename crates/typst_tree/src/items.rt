ghost use Rattle.std.specs.Prelude.{◌≡◌, ◌≤◌, ◌+◌, ◌-◌, ◌++◌, OnOk, OnErr, take, drop, vec_len};

use std::alloc::AllocError;

/// Puts `more` in place of `from..to`, or changes nothing.
pub(crate) fn splice<T: Drop>(
    all: &mut Vec<T>,
    from: usize,
    to: usize,
    more: Vec<T>,
) -> Result<(), AllocError>
    requires order { from ≤ to }
    requires within { to ≤ vec_len all.old }
    ensures ok { OnOk result (all.new.items ≡ take from all.old.items ++ (more.items ++ drop to all.old.items)) }
    ensures err { OnErr result (all.new.items ≡ all.old.items) }
{
    let _ = all.splice(from..to, more)?;
    Ok(())
}

/// Leaves out the elements `from..to`.
pub(crate) fn remove<T: Drop>(all: &mut Vec<T>, from: usize, to: usize)
    requires order { from ≤ to }
    requires within { to ≤ vec_len all.old }
    ensures { all.new.items ≡ take from all.old.items ++ drop to all.old.items }
{
    let kept = all.len() - (to - from);
    let items = all.as_mut_slice();
    let tail = &mut items[from..];
    tail.rotate_left(to - from);
    all.truncate(kept);
}

/// Leaves out the first `front` and the last `back`.
pub(crate) fn keep_middle<T: Drop>(all: &mut Vec<T>, front: usize, back: usize)
    requires { front + back ≤ vec_len all.old }
    ensures { all.new.items ≡ take (vec_len all.old - front - back) (drop front all.old.items) }
{
    let kept = all.len() - front - back;
    all.rotate_left(front);
    all.truncate(kept);
}
