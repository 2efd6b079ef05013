// When a grant is declined.
ghost use Rattle.std.specs.Prelude.{◌≡◌, ◌<◌, ◌≤◌, IfOk};
ghost use Rattle.lines.specs.Verdicts.{answered, told};
ghost use Rattle.switch.specs.Calls.{down_taken, row_decline};
ghost use Rattle.crossbar.specs.Above.{above, number_of};

use lines::{Downlink, Line, Lines, Uplink};
use schedule::{Join, Mode};
use switch::SwitchDecline;

// The number of a line, which the switch must have.
pub(super) fn inside(lines: Lines, line: Line) -> Result<usize, SwitchDecline>
    ensures answer { result ≡ told (above lines.count line) (number_of line) }
    ensures within { IfOk result (λ n. n < lines.count) }
{
    let number = match line {
        Line::Up(Uplink(number)) | Line::Down(Downlink(number)) => usize::from(number),
    };
    if number >= lines.count() {
        return Err(SwitchDecline::LineAbove(line));
    }
    Ok(number)
}

// Whether an entry of a row is joined to a downlink.
fn is_taken(row: &[Option<Join>; 16], down: Downlink) -> bool
    ensures { result ≡ down_taken down.0 row.now }
{
    row.iter()
        .any(|entry| matches!(entry, Some(join) if join.down == down))
}

// Whether an open mode takes a grant.
pub(super) fn check_grant(
    lines: Lines,
    mode: &Mode,
    up: Uplink,
    down: Downlink,
    units: u16,
) -> Result<(), SwitchDecline>
    ensures answer { result ≡ answered (row_decline lines.count mode.now.dwell mode.now.row up down units) }
    ensures fits { IfOk result (λ _. (up.0 < 16) × (units ≤ mode.now.dwell) × (down.0 < 16)) }
{
    let i = inside(lines, Line::Up(up))?;
    inside(lines, Line::Down(down))?;
    if units == 0 || units > mode.dwell {
        return Err(SwitchDecline::BadUnits);
    }
    if mode.row[i].is_some() {
        return Err(SwitchDecline::LineTaken(Line::Up(up)));
    }
    if is_taken(&mode.row, down) {
        return Err(SwitchDecline::LineTaken(Line::Down(down)));
    }
    Ok(())
}
