// Making a crossbar, and its carrier.
ghost use Rattle.std.specs.Prelude.{◌≡◌, ℕ, ◌<◌, [], length, slice_index_or};
ghost use Rattle.lines.specs.Matrix.{cells};
ghost use Rattle.crossbar.specs.Made.{bad_lines, made};
ghost use Rattle.crossbar.specs.Shown.{shown};

use super::carrier::Carrier;
use super::fabric::Fabric;
use super::held::Crossbar;
use lines::Lines;

// Nothing carried at any crosspoint. As for the owed matrix, of wider numbers: a generic clause would need a zero of the type.
fn no_units() -> [[u64; 16]; 16]
    ensures rows { (i : ℕ) → i < 16 → length (slice_index_or result i []) ≡ 16 }
    ensures none { (i j : ℕ) → cells result i j ≡ 0 }
{
    [[0; 16]; 16]
}

// Whether a number of lines is one that no switch has.
pub fn lines_outside(lines: usize) -> bool
    ensures { result ≡ bad_lines lines }
{
    Lines::new(lines).is_none()
}

// A number of lines outside 1 to 16 gives a fabric of one line without room: a making can't fail, and `lines_outside` tells beforehand.
fn make_fabric(lines: usize, room: u16) -> Fabric
    ensures { shown result ≡ made (bad_lines lines) lines room }
{
    let (lines, room) = match Lines::new(lines) {
        Some(lines) => (lines, room),
        None => (Lines::new(1).unwrap(), 0),
    };
    Fabric {
        lines,
        room,
        clock: 0,
        carried: no_units(),
        mode: None,
        last: None,
    }
}

impl<C: Carrier> Crossbar<C> {
    // A number of lines outside 1 to 16 gives a crossbar of one line without room.
    pub fn new(lines: usize, room: u16, carrier: C) -> Crossbar<C>
        ensures meaning { shown result.fabric ≡ made (bad_lines lines) lines room }
        ensures carrier { result.carrier ≡ carrier }
    {
        Crossbar {
            fabric: make_fabric(lines, room),
            carrier,
        }
    }

    pub fn carrier(&self) -> &C
        ensures { result.now ≡ self.now.carrier }
    {
        &self.carrier
    }

    // Another carrier from now on; the one so far is handed back.
    pub fn replace_carrier(&mut self, carrier: C) -> C
        ensures was { result ≡ self.old.carrier }
        ensures carrier { self.new.carrier ≡ carrier }
        ensures meaning { shown self.new.fabric ≡ shown self.old.fabric }
    {
        std::mem::replace(&mut self.carrier, carrier)
    }
}
