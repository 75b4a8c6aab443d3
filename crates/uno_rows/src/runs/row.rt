//! The text of a row.
//!
//! Its first line has the words of a run. Lines may follow, each of which begins with what it says: see the README. Behind the line `errors`,
//! where there is one, stands what the run must write on its errors, and behind the line `output` what it must write.
ghost use Rattle.std.specs.Prelude.{◌≡◌};
ghost use Rattle.uno_rows.specs.Wanted.{is_wanted};

use crate::runs::outcome::Outcome;

/// A row.
#[derive(Clone, Copy)]
pub(crate) struct Row<'a> {
    /// The file that has it.
    pub name: &'a str,
    pub words: &'a str,
    /// The first seed and the last.
    pub seeds: Option<(u32, u32)>,
    pub cuts: Option<&'a str>,
    /// The least size of the input's pieces, and the greatest: the run is made with each.
    pub sizes: Option<(u32, u32)>,
    /// The sizes of its pieces, in turn.
    pub pieces: Option<(u32, u32)>,
    /// The blocks of the input.
    pub reads: &'a str,
    pub faults: Faults,
    pub status: u8,
    pub left: usize,
    pub errors: &'a str,
    /// The blocks of the output, in front of its text.
    pub writes: &'a str,
    pub output: &'a str,
}

/// The number of the call of each that fails, from 0.
#[derive(Clone, Copy)]
pub(crate) struct Faults {
    pub files: Option<u64>,
    pub input: Option<u64>,
    pub output: Option<u64>,
    pub errors: Option<u64>,
}

const NO_FAULTS: Faults = Faults {
    files: None,
    input: None,
    output: None,
    errors: None,
};

impl<'a> Row<'a> {
    /// The row of a text; none where it is not the text of a row.
    pub(crate) fn read(name: &'a str, text: &'a str) -> Option<Row<'a>> {
        let (head, output) = text.split_once("output\n")?;
        let (head, errors) = head.split_once("errors\n").unwrap_or((head, ""));
        let (words, lines) = head.split_once('\n')?;
        let mut row = Row {
            name,
            words,
            seeds: None,
            cuts: None,
            sizes: None,
            pieces: None,
            reads: "",
            faults: NO_FAULTS,
            status: 0,
            left: 0,
            errors,
            writes: "",
            output,
        };
        for line in lines.lines() {
            row.take_line(line)?;
        }
        Some(row)
    }

    fn take_line(&mut self, line: &'a str) -> Option<()> {
        let (what, rest) = line.split_once(' ')?;
        match what {
            "seeds" => self.seeds = Some(range_of(rest)?),
            "cuts" => self.cuts = Some(rest),
            "sizes" => self.sizes = Some(range_of(rest)?),
            "pieces" => self.pieces = Some(two_of(rest)?),
            "reads" => self.reads = rest,
            "fails" => self.faults.take(rest)?,
            "status" => self.status = rest.parse::<u8>().ok()?,
            "left" => self.left = rest.parse::<usize>().ok()?,
            "writes" => self.writes = rest,
            _ => return None,
        }
        Some(())
    }

    /// Whether this is what must come of its runs, which must write these bytes.
    pub(crate) fn wants(&self, bytes: &[u8], outcome: &Outcome<'_>) -> bool
        ensures { result ≡ is_wanted self.now bytes.now outcome.now }
    {
        outcome.status == self.status
            && outcome.left == self.left
            && outcome.errors == self.errors.as_bytes()
            && outcome.output == bytes
    }
}

impl Faults {
    fn take(&mut self, text: &str) -> Option<()> {
        let (what, number) = text.split_once(' ')?;
        let number = Some(number.parse::<u64>().ok()?);
        match what {
            "files" => self.files = number,
            "input" => self.input = number,
            "output" => self.output = number,
            "errors" => self.errors = number,
            _ => return None,
        }
        Some(())
    }
}

fn two_of(text: &str) -> Option<(u32, u32)> {
    let (first, second) = text.split_once(' ')?;
    Some((first.parse::<u32>().ok()?, second.parse::<u32>().ok()?))
}

/// The first number and the last, which is not before it: so each row has a run.
fn range_of(text: &str) -> Option<(u32, u32)> {
    let (first, last) = two_of(text)?;
    match first <= last {
        true => Some((first, last)),
        false => None,
    }
}
