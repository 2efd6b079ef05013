// What every decline tells.
ghost use Rattle.std.specs.Prelude.{◌≡◌, ℕ};
ghost use Rattle.lines.specs.declared.Place.{Place as Pointed};

use super::Place;

// Why a call was declined, with the number that the rules give to that reason.
pub trait Decline {
    ghost number: { Self → ℕ };

    ghost place: { Self → Pointed };

    fn number(&self) -> u16
        ensures { result ≡ number self.now };

    fn place(&self) -> Place
        ensures { result ≡ place self.now };
}
