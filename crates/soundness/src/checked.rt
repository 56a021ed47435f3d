// A diagram that was checked.
ghost use Rattle.std.specs.Prelude.{◌≡◌, true, MatchOption};
ghost use Rattle.answer.specs.Fields.{fields};
ghost use Rattle.diagram.specs.Sound.{Sound};
ghost use Rattle.diagram.specs.Decided.{yes?};
ghost use Rattle.diagram.specs.SoundIsDecided.{sound?};

use crate::is_sound;

// A slice that is a sound diagram: one that was checked, or that is known to be sound where it is made.
#[derive(Clone, Copy)]
pub struct SoundDiagram<'a> {
    pub numbers: &'a [u16],
    pub ghost sound: { yes? (sound? fields numbers.now) ≡ true },
}

impl<'a> SoundDiagram<'a> {
    // The slice, where it is a sound diagram.
    pub fn check(numbers: &'a [u16]) -> Option<Self>
        ensures { MatchOption result (Sound fields numbers.now → ⊥) (λ diagram. diagram.numbers.now ≡ numbers.now) }
    {
        if is_sound(numbers) {
            Some(Self { numbers })
        } else {
            None
        }
    }
}
