// Mode records: 52 bytes each, a dwell, the number of lines, a zero byte, and an entry for each of sixteen uplinks.
ghost use Rattle.std.specs.Prelude.{◌≡◌, ◌%◌, ◌<◌, length, if◌then◌else◌, Some, None, Decides, MatchOption, nat_eq, nat_lt};
ghost use Rattle.records.specs.Files.{count};
ghost use Rattle.records.specs.Layout.{dwell_in, lines_in, entry_at, grant_in, row_in, mode_of, Neat, AllNeat, Layout, Proper};
ghost use Rattle.records.specs.Reader.{bytes_of, place_of, There, Shows, shown, parts, left};
ghost use Rattle.std.specs.Iterator.{YieldsFirstBy, item_count};

use lines::{Downlink, Uplink};
use schedule::{Join, Mode, keeps_rules};
use std::array;

// How many bytes a record has.
pub const RECORD_SIZE: usize = 52;

// How many entries a record has.
pub const ENTRIES: usize = 16;

// The least number that names no downlink: 254 is the test load. The layout of a file knows numbers only.
pub const UNUSED: u16 = 254;

// What stands for a downlink where there is no grant.
pub const NO_GRANT: u8 = 255;

// A record as a part of its file, with its place.
#[derive(Clone, Copy)]
pub struct Record<'a> {
    bytes: &'a [u8; 52],
    place: usize,
}

// What a record says of an uplink. It is no grant yet, since a test load and a bad idle entry name no downlink and may still bear units.
#[derive(Clone, Copy, PartialEq, Eq, Debug)]
pub struct Entry {
    pub down: Downlink,
    pub units: u16,
}

impl Entry {
    // The grant, if the entry names a downlink.
    pub fn grant(&self) -> Option<Join>
        ensures { result ≡ grant_in self.now }
    {
        (self.down.0 < UNUSED).then_some(Join {
            down: self.down,
            units: self.units,
        })
    }
}

// How many records a file has, or none if its length is not whole records.
pub fn record_count(file: &[u8]) -> Option<usize>
    ensures { result ≡ (if nat_eq (length file.now % 52) 0 then Some (count file.now) else None) }
{
    (file.len() % RECORD_SIZE == 0).then_some(file.len() / RECORD_SIZE)
}

// Record n of a file, or none if it is not wholly there.
#[tactic(auto, using(crate::proofs::Chunks::chunk_at))]
pub fn read_record(file: &[u8], n: usize) -> Option<Record<'_>>
    ensures { MatchOption result (There file.now n → ⊥) (Shows file.now n) }
{
    let (records, _) = file.as_chunks::<RECORD_SIZE>();
    let bytes = records.get(n)?;
    Some(Record { bytes, place: n })
}

// The whole records of a file, in their order. A type of its own, since what answers an `impl Iterator` gets no proof.
#[derive(Drop)]
pub struct RecordIter<'a> {
    file: &'a [u8],
    next: usize,
}

impl<'a> Iterator for RecordIter<'a> {
    type Item = Record<'a>;

    ghost next_gives = { YieldsFirstBy shown left };

    ghost remaining = { item_count left };

    fn next(&mut self) -> Option<Record<'a>> {
        let record = read_record(self.file, self.next)?;
        self.next += 1;
        Some(record)
    }
}

// The whole records of a file.
pub fn read_records(file: &[u8]) -> RecordIter<'_>
    ensures { left result ≡ parts file.now }
{
    RecordIter { file, next: 0 }
}

impl<'a> Record<'a> {
    // Which record of its file it is.
    pub fn place(&self) -> usize
        ensures { result ≡ place_of self.now }
    {
        self.place
    }

    // Its part of the file.
    pub fn bytes(&self) -> &'a [u8; 52]
        ensures { result.now ≡ bytes_of self.now }
    {
        self.bytes
    }

    pub fn dwell(&self) -> u16
        ensures { result ≡ dwell_in (bytes_of self.now) }
    {
        u16::from_be_bytes([self.bytes[0], self.bytes[1]])
    }

    // The number of lines.
    pub fn lines(&self) -> usize
        ensures { result ≡ lines_in (bytes_of self.now) }
    {
        usize::from(self.bytes[2])
    }

    // The entry of an uplink, or none from sixteen up.
    pub fn entry(&self, up: Uplink) -> Option<Entry>
        ensures { result ≡ (if nat_lt up.0 16 then Some (entry_at (bytes_of self.now) up.0) else None) }
    {
        let i = usize::from(up.0);
        (i < ENTRIES).then(|| entry_in(self.bytes, i))
    }

    // The mode that it says, whether or not it keeps the rules.
    pub fn mode(&self) -> Mode
        ensures { result ≡ mode_of (bytes_of self.now) }
    {
        Mode {
            dwell: self.dwell(),
            row: grants_in(self.bytes),
        }
    }

    // The mode that it says, if the record keeps its layout and the mode its rules, on so many lines.
    pub fn checked_mode(&self, lines: usize) -> Option<Mode>
        ensures { MatchOption result (Proper lines (bytes_of self.now) → ⊥) (λ m. Proper lines (bytes_of self.now) × (m ≡ mode_of (bytes_of self.now))) }
    {
        let mode = self.mode();
        (keeps_layout(lines, self.bytes) && keeps_rules(lines, &mode)).then_some(mode)
    }
}

// Entry i of a record.
fn entry_in(bytes: &[u8; 52], i: usize) -> Entry
    requires { i < 16 }
    ensures { result ≡ entry_at bytes.now i }
{
    let at = 4 + 3 * i;
    Entry {
        down: Downlink(u16::from(bytes[at])),
        units: u16::from_be_bytes([bytes[at + 1], bytes[at + 2]]),
    }
}

// The grants of the sixteen uplinks.
fn grants_in(bytes: &[u8; 52]) -> [Option<Join>; 16]
    ensures { result ≡ row_in bytes.now }
{
    array::from_fn(|i| entry_in(bytes, i).grant())
}

// Whether entry i keeps the layout, of so many lines.
fn is_neat(lines: usize, i: usize, entry: Entry) -> bool
    ensures { Decides result (Neat lines i entry) }
{
    (entry.down.0 < UNUSED || entry.units == 0)
        && (i < lines || entry.down.0 == u16::from(NO_GRANT))
}

// Whether all entries do.
fn are_neat(lines: usize, bytes: &[u8; 52]) -> bool
    ensures { Decides result (AllNeat lines bytes.now) }
{
    (0..ENTRIES).all(|i| is_neat(lines, i, entry_in(bytes, i)))
}

// Whether a record keeps the layout, of so many lines.
fn keeps_layout(lines: usize, bytes: &[u8; 52]) -> bool
    ensures { Decides result (Layout lines bytes.now) }
{
    usize::from(bytes[2]) == lines && bytes[3] == 0 && are_neat(lines, bytes)
}
