//! The place of an item in a list that is in order.

ghost use Rattle.std.specs.Prelude.{◌≡◌, ◌≤◌, length, nat_lt};
ghost use Rattle.std.specs.List.{position_or_len};

/// How many items of a list stand before the first that is above this one.
pub fn place_in_order(listed: &[u32], item: u32) -> usize
    ensures place { result ≡ position_or_len (nat_lt item) listed.now }
    ensures within { result ≤ length listed.now }
{
    for at in 0..listed.len() {
        if item < listed[at] {
            return at;
        }
    }
    listed.len()
}
