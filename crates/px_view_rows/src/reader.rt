use px_base::{Fault, Kind, Said};

/// What is left of a row, and whether all that was read so far is as the row says.
#[derive(Clone, Copy)]
pub struct Reader<'a> {
    rest: &'a str,
    pub agrees: bool,
}

impl<'a> Reader<'a> {
    pub fn new(row: &'a str) -> Reader<'a> {
        Reader {
            rest: row,
            agrees: true,
        }
    }

    /// The next word, which is empty where there is none.
    pub fn word(&mut self) -> &'a str {
        match self.rest.split_once(' ') {
            Some((word, rest)) => {
                self.rest = rest;
                word
            }
            None => {
                let word = self.rest;
                self.rest = "";
                word
            }
        }
    }

    /// The next word as a whole number, or none where it isn't one.
    pub fn bound(&mut self) -> Option<i128> {
        self.word().parse::<i128>().ok()
    }

    /// The next word as an index.
    pub fn index(&mut self) -> i128 {
        match self.bound() {
            Some(at) => at,
            None => {
                self.agrees = false;
                0
            }
        }
    }

    /// The next word as a number from 0 on.
    pub fn count(&mut self) -> u64 {
        match self.word().parse::<u64>() {
            Ok(count) => count,
            Err(_) => {
                self.agrees = false;
                0
            }
        }
    }

    /// The next word as the number of an axis, or how many there are.
    pub fn axis(&mut self) -> u8 {
        match self.word().parse::<u8>() {
            Ok(axis) => axis,
            Err(_) => {
                self.agrees = false;
                0
            }
        }
    }

    /// The next word as a yes or no.
    pub fn yes(&mut self) -> bool {
        self.word() == "yes"
    }

    /// The next word has to be this number.
    pub fn expect(&mut self, given: u64) {
        if self.count() != given {
            self.agrees = false;
        }
    }

    /// The next word has to be this fault.
    pub fn expect_fault(&mut self, fault: Fault) {
        let Said::Axis(axis) = fault.said else {
            self.agrees = false;
            return;
        };
        match fault.kind {
            Kind::IndexError => self.expect(u64::from(axis) + 1),
            Kind::ValueError => self.expect(u64::from(axis) + 11),
            _ => self.agrees = false,
        }
    }
}
