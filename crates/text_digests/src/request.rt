// What a line of settings asks for: CLEAVE SKIP SIDE SEMI MISSED MINIMUM MAXIMUM, parted by single blanks.
use enzyme_cuts::{Enzyme, Kind, Side};
use enzyme_spec::Settings;
use letters::LetterSet;
use text_fields::{decimal_at, field, is_set, small_at};

#[derive(Clone, Copy)]
pub struct Request {
    pub enzyme: Enzyme,
    pub settings: Settings,
}

// The set of the letters that begin at a place.
fn set(line: &[u8], at: usize) -> LetterSet {
    let mut found = LetterSet::EMPTY;
    for i in at..line.len() {
        if line[i] == b' ' {
            return found;
        }
        found = found.insert(line[i]);
    }
    found
}

fn kind(line: &[u8]) -> Kind {
    match records::byte_at(line, 0) {
        b'$' => Kind::End,
        b'-' => Kind::None,
        _ => Kind::Set(set(line, 0)),
    }
}

fn side(line: &[u8]) -> Side {
    let at = field(line, 2);
    if records::byte_at(line, at) == b'N' {
        Side::N
    } else {
        Side::C
    }
}

fn enzyme(line: &[u8]) -> Enzyme {
    let kind = kind(line);
    let skip = set(line, field(line, 1));
    let side = side(line);
    let semi = is_set(line, 3);
    Enzyme {
        kind,
        skip,
        side,
        semi,
    }
}

fn settings(line: &[u8]) -> Settings {
    // more than 255 is refused as 255 is
    let missed = small_at(line, 4);
    let minimum = decimal_at(line, 5);
    let maximum = decimal_at(line, 6);
    Settings {
        missed,
        minimum,
        maximum,
    }
}

pub fn read_request(line: &[u8]) -> Request {
    let enzyme = enzyme(line);
    let settings = settings(line);
    Request { enzyme, settings }
}
