//! Random words, and the draw of one item of a list: `draw` is `word * count / 2^32`, the one place
//! at which a random word picks an item.
#![tactic(auto)]

ghost use Rattle.std.specs.Prelude.{◌≡◌, ◌≤◌, ◌^◌};
ghost use Rattle.tt_draw.specs.Draws.{drawn_place};

/// The place that a random word draws among `count` items, counted from 0. There are at most 2^32.
pub fn draw(word: u32, count: u64) -> u64
    requires { count ≤ 2 ^ 32 }
    ensures { result ≡ drawn_place word count }
{
    u64::from(word) * count / (1 << 32)
}
