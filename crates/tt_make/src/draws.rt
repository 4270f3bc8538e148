//! The draw of a number by the next random word.

ghost use Rattle.std.specs.Prelude.{◌≡◌, ◌<◌};
ghost use Rattle.tt_make.specs.Draws.{draw as draw_of};

use rand_core::utils::NextWord;
use rand_pcg::Lcg64Xsh32;
use tt_draw::draw as draw_place;

/// A number below `k`, from the next word.
#[tactic(auto, unfolding(crate::specs::Draws::draw))]
pub fn draw(random: &mut Lcg64Xsh32, k: u32) -> u32
    requires { 0 < k }
    ensures gives { (result, random.new) ≡ draw_of k random.old }
    ensures below { result < k }
{
    let word = random.next_word();
    draw_place(word, u64::from(k)) as u32
}
