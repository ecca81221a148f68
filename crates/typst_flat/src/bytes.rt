//! Arrays of bytes.

ghost use Rattle.std.specs.Prelude.{◌≡◌, ◌+◌, ◌++◌, List, length, ℕ};
ghost use Rattle.typst_tree.specs.Tree.{saturated};
ghost use Rattle.typst_flat.specs.Records.{filled};

/// Puts a text into an array, as many bytes as fit, and tells how many there are.
pub fn fill_text(text: &str, room: &mut [u8]) -> usize
    ensures count { result ≡ length text.now }
    ensures room { room.new ≡ filled text.now room.old }
{
    put(text.as_bytes(), 0, room);
    text.len()
}

/// Puts bytes into an array after those that stand in it, as far as they fit.
pub(crate) fn put(bytes: &[u8], at: usize, room: &mut [u8])
    ensures { (before : List ℕ) → (old : List ℕ) → at ≡ saturated (length before) → room.old ≡ filled before old → room.new ≡ filled (before ++ bytes.now) old }
{
    for i in 0..bytes.len() {
        let place = at.saturating_add(i);
        if place < room.len() {
            room[place] = bytes[i];
        }
    }
}
