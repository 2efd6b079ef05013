// A partial matching: which uplink holds which downlink.
ghost use Rattle.std.specs.Prelude.{◌≡◌, ℕ, ◌<◌, None, slice_index_or, true, false, ◌&&◌, nat_lt};
ghost use Rattle.lines.specs.Sets.{has, In};
ghost use Rattle.augmenting.specs.Holders.{holder, Known, Apart, Told, Mated, Augmented};

use crate::search::seat_idle;
use lines::{Downlink, Uplink, has_line, with_line};

// The holder of each downlink; no uplink holds two.
#[derive(Clone, Copy)]
pub struct Pairing {
    holders: [Option<Uplink>; 16],
    // the uplinks that hold a downlink: to go through the holders takes longer
    busy: u16,
    ghost known: { Known holders },
    ghost apart: { Apart holders },
    ghost told: { Told holders busy },
}

fn all_free() -> [Option<Uplink>; 16]
    ensures { (j : ℕ) → slice_index_or result j None ≡ None }
{
    [None; 16]
}

impl Pairing {
    // Nobody holds a downlink.
    pub fn none() -> Pairing
        ensures { (j : ℕ) → j < 16 → holder result.holders j ≡ 16 }
    {
        Pairing {
            holders: all_free(),
            busy: 0,
        }
    }

    // The downlinks that are held.
    #[tactic(auto, using(lines::proofs::Bits::has_zero))]
    pub fn held(&self) -> u16
        ensures { (j : ℕ) → has result j ≡ (nat_lt j 16 && nat_lt (holder self.now.holders j) 16) }
    {
        let mut held = 0;
        for (down, holder) in self.holders.iter().enumerate() {
            if holder.is_some() {
                held = with_line(held, down);
            }
        }
        held
    }

    // The uplinks that hold one of the downlinks.
    #[tactic(auto, using(lines::proofs::Bits::has_zero))]
    pub fn holders_of(&self, downs: u16) -> u16
        ensures from { (u : ℕ) → In result u → (u < 16) × ((j : ℕ) × (j < 16) × In downs j × (holder self.now.holders j ≡ u)) }
        ensures all { (j : ℕ) → j < 16 → In downs j → holder self.now.holders j < 16 → In result (holder self.now.holders j) }
    {
        let mut set = 0;
        for (down, holder) in self.holders.iter().enumerate() {
            if let Some(up) = holder {
                if has_line(downs, down) {
                    set = with_line(set, usize::from(up.0));
                }
            }
        }
        set
    }

    // The downlink of each uplink.
    pub fn mates(&self) -> [Downlink; 16]
        ensures { Mated self.now.holders result }
    {
        let mut mates = [Downlink(255); 16];
        for (down, holder) in self.holders.iter().enumerate() {
            if let Some(up) = holder {
                mates[usize::from(up.0)] = Downlink(down as u16);
            }
        }
        mates
    }

    // Gives the uplink a downlink of its row along an augmenting path through downlinks that have not been tried, where there is one, and tells whether it holds one then.
    pub fn augment(&mut self, rows: &[u16; 16], up: Uplink, tried: &mut u16) -> bool
        ensures { Augmented rows.now self.old.holders self.new.holders up.0 tried.old tried.new result }
    {
        if up.0 >= 16 {
            return false;
        }
        let up = usize::from(up.0);
        if has_line(self.busy, up) {
            return true;
        }
        let seated = seat_idle(rows, up, tried, &mut self.holders);
        if seated {
            self.busy = with_line(self.busy, up);
        }
        seated
    }
}
