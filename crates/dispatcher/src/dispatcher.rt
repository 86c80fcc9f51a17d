//! The running dispatcher: rule and roads, which stay the same throughout, and the present state.
ghost use Rattle.std.specs.Prelude.{◌≡◌, true};
ghost use Rattle.fleet.specs.SoundTest.{is_sound};

use fleet::State;
use growth::Ground;

/// A dispatcher, with a state that is sound.
#[derive(Drop)]
pub struct Dispatcher<'a, R, S> {
    pub(crate) ground: Ground<'a, R, S>,
    pub(crate) state: State,
    ghost sound: { is_sound state ≡ true },
}
