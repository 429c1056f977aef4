// What a command is answered, and the line that is written for it.
#![tactic(auto)]

ghost use Rattle.answers.specs.Answers.{each, line, piece, place, refused};
ghost use Rattle.std.specs.Prelude.{Some};
ghost use Rattle.std.specs.Fmt.{WritesOnOk};

pub mod failure;

use numerals::{Hex, HexBytes};
use refusal::Refusal;
use std::fmt;

/// A range of addresses, or a piece of the host's bytes.
#[derive(Clone, Copy, PartialEq, Eq, Drop)]
pub struct Span {
    pub start: u64,
    pub len: u64,
}

/// What a command is answered; each is one line of output.
#[derive(Drop)]
pub enum Answer {
    /// It was done.
    Done,
    Number(u64),
    /// There is no such thing.
    Absent,
    /// A region, and its place in the host if it has one.
    Region(Span, Option<u64>),
    /// The number of regions left, then the region that was removed.
    Removed(u64, Span, Option<u64>),
    /// The checked result, the wrapped one, and whether it wrapped: the line has all three.
    Checked(Option<u64>, u64, bool),
    /// The pieces that were drawn, and what a further draw was refused for.
    Pieces(Vec<Span>, Option<Refusal>),
    Bytes(Vec<u8>),
    Refused(Refusal),
    /// The line is no command, or asks for what is not there yet.
    Error,
}

/// A number that there may be none of, such as a place in the host.
#[derive(Clone, Copy, Drop)]
struct Place(Option<u64>);

/// A refusal as it is written: its number, its name and its details.
#[derive(Clone, Copy, Drop)]
struct Reason(Refusal);

impl fmt::Display for Place {
    ghost output = { λ x. Some (place x.0) };

    fn fmt<W: fmt::Write>(&self, f: &mut fmt::Formatter<W>) -> fmt::Result {
        match self.0 {
            Some(n) => write!(f, "{}", Hex(n)),
            None => f.write_str("none"),
        }
    }
}

impl fmt::Display for Span {
    ghost output = { λ x. Some (piece x) };

    fn fmt<W: fmt::Write>(&self, f: &mut fmt::Formatter<W>) -> fmt::Result {
        write!(f, "{}+{}", Hex(self.start), Hex(self.len))
    }
}

/// Writes spans in a row, each after a blank.
fn put_row<W: fmt::Write>(row: &[Span], f: &mut fmt::Formatter<W>) -> fmt::Result
    ensures { WritesOnOk W.write_str_gives f.old result (each piece row.now) f.new }
{
    // a `try_for_each` here leaves open what was written (tried): nothing is known of what its closure
    // changed
    for span in row {
        write!(f, " {span}")?;
    }
    Ok(())
}

impl fmt::Display for Reason {
    ghost output = { λ x. Some (refused x.0) };

    fn fmt<W: fmt::Write>(&self, f: &mut fmt::Formatter<W>) -> fmt::Result {
        let number = self.0.number();
        let name = self.0.name();
        match self.0 {
            Refusal::BadRegion(n) | Refusal::InvalidGuestAddress(n) => {
                write!(f, "refused {number} {name} {}", Hex(n))
            }
            _ => write!(f, "refused {number} {name}"),
        }
    }
}

impl fmt::Display for Answer {
    ghost output = { λ x. Some (line x) };

    fn fmt<W: fmt::Write>(&self, f: &mut fmt::Formatter<W>) -> fmt::Result {
        match self {
            Answer::Done => f.write_str("ok"),
            Answer::Number(n) => write!(f, "ok {}", Hex(*n)),
            Answer::Absent => f.write_str("none"),
            Answer::Region(region, place) => write!(f, "ok {region} {}", Place(*place)),
            Answer::Removed(left, region, place) => {
                write!(f, "ok {} {region} {}", Hex(*left), Place(*place))
            }
            Answer::Checked(checked, wrapped, over) => {
                write!(f, "ok {} {} {over}", Place(*checked), Hex(*wrapped))
            }
            Answer::Pieces(drawn, end) => {
                f.write_str("ok")?;
                put_row(drawn.as_slice(), f)?;
                match end {
                    Some(refusal) => write!(f, " {}", Reason(*refusal)),
                    None => Ok(()),
                }
            }
            Answer::Bytes(bytes) => write!(f, "ok {}", HexBytes(bytes.as_slice())),
            Answer::Refused(refusal) => write!(f, "{}", Reason(*refusal)),
            Answer::Error => f.write_str("error"),
        }
    }
}
