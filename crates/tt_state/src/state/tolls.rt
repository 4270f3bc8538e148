//! What a class at a value weighs.

ghost use Rattle.std.specs.Prelude.{◌≡◌, ◌≤◌, ◌^◌};
ghost use Rattle.tt_state.specs.Values.{conflict_set_of};
ghost use Rattle.tt_state.specs.Tolls.{toll_of, tolls_of};

use crate::state::State;
use tt_bits::{Key, Value};

impl State {
    // 1, and how often the class at the value has pushed out the other from the value that it has.
    fn toll(&self, class: u32, value: Value, other: u32) -> u128
        ensures toll { result ≡ toll_of self.now.present class value other }
        ensures small { result ≤ 2 ^ 64 }
    {
        let Some(other_value) = self.score().value(other) else {
            return 1;
        };
        let key = Key {
            class,
            value,
            other,
            other_value,
        };
        1 + u128::from(self.statistics().count(key))
    }

    /// The tolls of the whole conflict set of a class at a value, which was found last.
    #[tactic(auto, unfolding(crate::specs::Tolls::tolls_of))]
    pub fn tolls(&self, class: u32, value: Value) -> u128
        requires taken { self.now.taken
            ≡ conflict_set_of self.now.problem self.now.present class value }
        ensures tolls { result ≡ tolls_of self.now.problem self.now.present class value }
    {
        self.problem().validity();
        let mut tolls = 0;
        for other in self.taken() {
            tolls += self.toll(class, value, *other);
        }
        tolls
    }
}
