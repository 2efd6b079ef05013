// Modes written as records of 52 bytes.
ghost use Rattle.std.specs.Prelude.{◌≡◌, ◌*◌, ◌≤◌, ◌++◌, map, length, take, drop, IfOk, OnOk};
ghost use Rattle.lines.specs.Verdicts.{told, or_same};
ghost use Rattle.plan_files.specs.Declines.{write_decline};
ghost use Rattle.plan_files.specs.Encoding.{grant_bytes, encode, encoded, Full, ComesBack, ServesOn};

use super::decline::WriteDecline;
use records::{NO_GRANT, RECORD_SIZE, UNUSED};
use schedule::{Join, Mode};

// The three bytes of an entry.
fn entry_bytes(grant: Option<Join>) -> [u8; 3]
    ensures { result ≡ grant_bytes grant }
{
    match grant {
        Some(join) if join.down.0 < UNUSED => {
            let [high, low] = join.units.to_be_bytes();
            // it fits, since it is below 254
            [join.down.0 as u8, high, low]
        }
        _ => [NO_GRANT, 0, 0],
    }
}

// The entries of sixteen uplinks.
fn entries_of(row: &[Option<Join>; 16]) -> [[u8; 3]; 16]
    ensures written { result ≡ map grant_bytes row.now }
    ensures sixteen { length row.now ≡ 16 }
{
    // A loop, since `row.map(entry_bytes)` takes several times as long.
    let mut entries = [[0; 3]; 16];
    for (i, grant) in row.iter().enumerate() {
        entries[i] = entry_bytes(*grant);
    }
    entries
}

// The record of a mode.
fn encode_mode(lines: usize, mode: &Mode) -> [u8; 52]
    ensures bytes { result ≡ encode lines mode.now }
    ensures full { Full mode.now }
{
    let mut bytes = [0; 52];
    let [high, low] = mode.dwell.to_be_bytes();
    bytes[0..4].copy_from_slice(&[high, low, u8::try_from(lines).unwrap_or(u8::MAX), 0]);
    bytes[4..52].copy_from_slice(entries_of(&mode.row).as_flattened());
    bytes
}

// The records of all modes, one after the other. Lines and modes are apart, since a session writes only the modes that are left of its plan.
fn write_all(lines: usize, modes: &[Mode], out: &mut [u8])
    requires { 52 * length modes.now ≤ length out.old }
    ensures after { out.new ≡ encoded lines modes.now ++ drop (52 * length modes.now) out.old }
    ensures front { take (52 * length modes.now) out.new ≡ encoded lines modes.now }
    ensures back { ComesBack lines modes.now }
    ensures serves { ServesOn lines modes.now }
{
    // By places, and not by `chunks_exact_mut`, whose contract does not tell what the buffer holds afterwards.
    for (i, mode) in modes.iter().enumerate() {
        let at = RECORD_SIZE * i;
        out[at..at + RECORD_SIZE].copy_from_slice(&encode_mode(lines, mode));
    }
}

// Writes modes of so many lines as records into the front of a buffer, and answers the bytes used. Where the buffer is too short, nothing is written.
pub fn write_modes(lines: usize, modes: &[Mode], out: &mut [u8]) -> Result<usize, WriteDecline>
    ensures answer { result ≡ told (write_decline (length modes.now) (length out.old)) (52 * length modes.now) }
    ensures after { out.new ≡ or_same (write_decline (length modes.now) (length out.old)) (encoded lines modes.now ++ drop (52 * length modes.now) out.old) out.old }
    ensures front { IfOk result (λ used. take used out.new ≡ encoded lines modes.now) }
    ensures back { OnOk result (ComesBack lines modes.now) }
    ensures serves { OnOk result (ServesOn lines modes.now) }
{
    if modes.len() > out.len() / RECORD_SIZE {
        return Err(WriteDecline::ShortBuffer);
    }
    write_all(lines, modes, out);
    Ok(RECORD_SIZE * modes.len())
}
