//! The draw of a number by the next random word.

ghost use Rattle.std.specs.Prelude.{◌≡◌, ◌<◌, ◌≤◌, ◌^◌};
ghost use Rattle.tt_deluge.specs.Draws.{draw_next};
ghost use Rattle.tt_deluge.specs.Reading.{random_of};

use rand_core::Rng;
use rand_pcg::Lcg64Xsh32;

// The number below `count` that the next random word draws.
pub(crate) fn draw_below(random: &mut Lcg64Xsh32, count: u64) -> u64
    requires { count ≤ 2 ^ 32 }
    ensures draw { (result, random_of random.new) ≡ draw_next count (random_of random.old) }
    ensures below { 0 < count → result < count }
{
    tt_draw::draw(random.next_u32(), count)
}
