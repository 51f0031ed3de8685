// The words of a line.
/// What is left of a line whose words stand with one blank between two.
#[derive(Drop)]
pub struct Words<'a> {
    rest: &'a str,
}

impl<'a> Words<'a> {
    pub fn of(line: &'a str) -> Words<'a> {
        Words { rest: line }
    }

    /// The next word. At the end it is empty.
    pub fn next(&mut self) -> &'a str {
        match self.rest.split_once(' ') {
            Some((word, rest)) => {
                self.rest = rest;
                word
            }
            None => {
                let word = self.rest;
                self.rest = "";
                word
            }
        }
    }

    /// All that is left.
    pub fn rest(&self) -> &'a str {
        self.rest
    }

    /// The next word as a number. Where it is none, it counts as 0.
    pub fn number(&mut self) -> u64 {
        self.next().parse().unwrap_or(0)
    }
}
