// The steps of a reading.
use std::io;

// What a piece of a file comes to.
#[derive(Clone, Copy)]
pub enum Step {
    Entry,
    Nothing,
    // The file has no more.
    End,
}

// Why a reading ends before the end of the file.
#[derive(Clone, Copy)]
pub enum Stop {
    // The file is not taken, and why was said.
    Said,
    // A call on the file failed.
    File(io::Error),
    // What was to be said could not be written.
    Print(io::Error),
}

impl From<io::Error> for Stop {
    fn from(why: io::Error) -> Stop {
        Stop::Print(why)
    }
}

// The same of a call on the file.
pub fn of_file(why: io::Error) -> Stop {
    Stop::File(why)
}
