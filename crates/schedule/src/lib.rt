// Modes and schedules, and the bound that no schedule beats.
#![tactic(auto)]

ghost use Rattle.std.specs.Prelude.{◌≡◌, ◌+◌, ◌≤◌, true, Decides};
ghost use Rattle.schedule.specs.Bounds.{NoShorter, NoShorterShop, NoShorterParts, Unfolds};
ghost use Rattle.schedule.specs.Modes.{longest_dwell, grant_of, granted, Sound, span, in_32_bits};
ghost use Rattle.schedule.specs.Equal.{same_rows, same_mode, same_mode_equiv};
ghost use Rattle.schedule.specs.Rules.{Fitting, Free, Kept};
ghost use Rattle.std.specs.Cmp.{partial_equiv_from_equiv};

use lines::{Downlink, Uplink};

// What an uplink is granted: a downlink, for some units.
#[derive(Clone, Copy, PartialEq, Eq, Debug)]
pub struct Join {
    pub down: Downlink,
    pub units: u16,
}

// A dwell, and for each uplink its grant, if any: so no uplink has two.
#[derive(Clone, Copy, Debug)]
pub struct Mode {
    pub dwell: u16,
    pub row: [Option<Join>; 16],
}

// By hand, since a derive would not promise that `==` tells whether two modes are the same.
impl PartialEq for Mode {
    ghost eq = { same_mode };

    ghost laws = { partial_equiv_from_equiv same_mode_equiv };

    fn eq(&self, other: &Mode) -> bool
        ensures value { result ≡ same_mode self.now other.now }
        ensures same { Decides result (self.now ≡ other.now) }
    {
        self.dwell == other.dwell && same_row(&self.row, &other.row)
    }
}

impl Eq for Mode {
    ghost laws = { same_mode_equiv };
}

impl Mode {
    // What an uplink is granted.
    pub fn grant(&self, up: Uplink) -> Option<Join>
        ensures { result ≡ grant_of self.now up.0 }
    {
        self.row.get(usize::from(up.0)).copied().flatten()
    }

    // The units that are granted at a crosspoint.
    pub fn units_to(&self, up: Uplink, down: Downlink) -> u16
        ensures { result ≡ granted self.now up.0 down.0 }
    {
        match self.grant(up) {
            Some(join) if join.down == down => join.units,
            _ => 0,
        }
    }
}

// Whether two rows hold the same grants.
fn same_row(one: &[Option<Join>; 16], other: &[Option<Join>; 16]) -> bool
    ensures value { result ≡ same_rows one.now other.now }
    ensures same { Decides result (one.now ≡ other.now) }
{
    one == other
}

// A start and the dwells after it, if the sum has at most 32 bits. Apart from the length, so that the sum is proved without what else that promises.
fn add_up(start: u32, modes: &[Mode]) -> Option<u32>
    ensures { result ≡ in_32_bits (start + span modes.now) }
{
    let mut total = start;
    // no try_fold, since the total that it leaves needs a proof over its calls
    for mode in modes {
        total = total.checked_add(u32::from(mode.dwell))?;
    }
    Some(total)
}

// The length of a schedule, if it has at most 32 bits.
// No schedule that serves a matrix is shorter than its busiest line: none of modes, and no other of the open shop, even if it breaks off within a slot. One of modes is an open-shop schedule too.
pub fn length(modes: &[Mode]) -> Option<u32>
    ensures sum { result ≡ in_32_bits (span modes.now) }
    ensures no_shorter { NoShorter }
    ensures no_shorter_shop { NoShorterShop }
    ensures no_shorter_parts { NoShorterParts }
    ensures unfolds { Unfolds }
{
    add_up(0, modes)
}

// Whether no uplink below i is granted the downlink.
fn is_free(mode: &Mode, i: usize, down: Downlink) -> bool
    requires { i ≤ 16 }
    ensures { Decides result (Free mode.now i down.0) }
{
    mode.row[..i]
        .iter()
        .all(|grant| grant.is_none_or(|join| join.down != down))
}

// Whether a grant of uplink i is for lines below the number of lines, and for some units within the dwell.
fn fits_mode(lines: usize, dwell: u16, i: usize, join: Join) -> bool
    ensures { Decides result (Fitting lines dwell i join) }
{
    i < lines && usize::from(join.down.0) < lines && join.units > 0 && join.units <= dwell
}

// Whether a grant of uplink i keeps the rules, beside those of the uplinks below.
fn keeps_grant(lines: usize, mode: &Mode, i: usize, join: Join) -> bool
    requires { i ≤ 16 }
    ensures { Decides result (Kept lines mode.now i join) }
{
    fits_mode(lines, mode.dwell, i, join) && is_free(mode, i, join.down)
}

// Whether all grants keep the rules.
fn keeps_grants(lines: usize, mode: &Mode) -> bool
    ensures kept { result ≡ true → 1 ≤ mode.now.dwell → mode.now.dwell ≤ longest_dwell → Sound lines mode.now }
    ensures sound { Sound lines mode.now → result ≡ true }
{
    let mut grants = mode.row.iter().enumerate();
    grants.all(|(i, grant)| grant.is_none_or(|join| keeps_grant(lines, mode, i, join)))
}

// Whether a mode keeps the rules on so many lines.
pub fn keeps_rules(lines: usize, mode: &Mode) -> bool
    ensures { Decides result (Sound lines mode.now) }
{
    mode.dwell > 0 && keeps_grants(lines, mode)
}
