// Why modes are not written, or not read.
ghost use Rattle.std.specs.Prelude.{◌≡◌};
ghost use Rattle.plan_files.specs.declared.decline.FileDecline.TheVariants.{Write, Read};
ghost use Rattle.plan_files.specs.Declines.{write_number, write_place, read_number, read_place, file_number, file_place};

use lines::{Decline, Place};

#[derive(Clone, Copy, PartialEq, Eq, Debug)]
pub enum WriteDecline {
    // The buffer is too short.
    ShortBuffer,
}

#[derive(Clone, Copy, PartialEq, Eq, Debug)]
pub enum ReadDecline {
    // The length is not whole records.
    Size,
    // The first record that is no mode of the first one's lines.
    Improper(usize),
    // Want of memory is no reason of the rules, so it has none of their numbers.
    NoMemory,
}

// Why modes that were to be written and read back were not.
#[derive(Clone, Copy, PartialEq, Eq, Debug)]
pub enum FileDecline {
    Write(WriteDecline),
    Read(ReadDecline),
}

impl Decline for WriteDecline {
    ghost number = { write_number };

    ghost place = { write_place };

    fn number(&self) -> u16 {
        match *self {
            WriteDecline::ShortBuffer => 16,
        }
    }

    fn place(&self) -> Place {
        match *self {
            WriteDecline::ShortBuffer => Place::Nowhere,
        }
    }
}

impl Decline for ReadDecline {
    ghost number = { read_number };

    ghost place = { read_place };

    fn number(&self) -> u16 {
        match *self {
            ReadDecline::Size => 15,
            ReadDecline::Improper(_) => 17,
            ReadDecline::NoMemory => 0,
        }
    }

    fn place(&self) -> Place {
        match *self {
            ReadDecline::Size => Place::Nowhere,
            ReadDecline::Improper(record) => Place::AtRecord(record),
            ReadDecline::NoMemory => Place::Nowhere,
        }
    }
}

impl Decline for FileDecline {
    ghost number = { file_number };

    ghost place = { file_place };

    fn number(&self) -> u16 {
        match *self {
            FileDecline::Write(decline) => decline.number(),
            FileDecline::Read(decline) => decline.number(),
        }
    }

    fn place(&self) -> Place {
        match *self {
            FileDecline::Write(decline) => decline.place(),
            FileDecline::Read(decline) => decline.place(),
        }
    }
}

impl From<WriteDecline> for FileDecline {
    ghost from_gives = { λ d r. r ≡ Write d };

    fn from(why: WriteDecline) -> FileDecline {
        FileDecline::Write(why)
    }
}

impl From<ReadDecline> for FileDecline {
    ghost from_gives = { λ d r. r ≡ Read d };

    fn from(why: ReadDecline) -> FileDecline {
        FileDecline::Read(why)
    }
}
