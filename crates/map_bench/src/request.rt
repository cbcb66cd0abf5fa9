//! What is measured, as the program's words say it.

/// The map that is measured.
#[derive(Clone, Copy, Debug, PartialEq, Eq)]
pub enum Kind {
    Ours,
    Std,
}

/// What is done with the keys.
#[derive(Clone, Copy, Debug, PartialEq, Eq)]
pub enum Work {
    Insert,
    Find,
}

/// A measure: how many keys, of how many bytes, in which map.
#[derive(Clone, Copy, Debug, PartialEq, Eq)]
pub struct Request {
    pub count: u32,
    pub length: u8,
    pub kind: Kind,
    pub work: Work,
}

impl Request {
    /// The request that the words `KEYS LENGTH ours|std insert|find` stand for; at most 2^24 keys.
    pub fn read(words: &[String]) -> Option<Request> {
        match words {
            [count, length, kind, work] => Some(Request {
                count: count.parse::<u32>().ok().filter(|n| *n <= 1 << 24)?,
                length: length.parse::<u8>().ok()?,
                kind: Kind::read(kind)?,
                work: Work::read(work)?,
            }),
            _ => None,
        }
    }
}

impl Kind {
    fn read(word: &str) -> Option<Kind> {
        match word {
            "ours" => Some(Kind::Ours),
            "std" => Some(Kind::Std),
            _ => None,
        }
    }
}

impl Work {
    fn read(word: &str) -> Option<Work> {
        match word {
            "insert" => Some(Work::Insert),
            "find" => Some(Work::Find),
            _ => None,
        }
    }
}
