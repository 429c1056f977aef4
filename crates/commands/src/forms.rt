// The commands by their number of words: the numbers are read first, then the name decides.
// One `match` on a slice of all words (tried) checks for over two minutes, and its `_` arm stays open.
ghost use Rattle.std.specs.Prelude.{◌≡◌, [], ◌∷◌, codes, ◌≢◌};
ghost use Rattle.commands.specs.Commands.{Reads};
ghost use Rattle.words.specs.Lines.{IfRead};
ghost use Rattle.words.specs.Words.{words};

use crate::Command;
use numerals::parse_number;
use std::alloc::Global;
use words::{LineError, cut, parse_entries};

/// The most bytes that a box may have, and that are written out at a time.
const MOST: u64 = 0x100_0000;

fn bare(name: &str) -> Option<Command>
    ensures { Reads result (name.now ∷ []) }
{
    match name {
        "collect" => Some(Command::Collect),
        "count" => Some(Command::Count),
        "last" => Some(Command::Last),
        "digest" => Some(Command::Digest),
        _ => None,
    }
}

fn with_one(name: &str, a: &str) -> Option<Command>
    requires { name.now ≢ codes "frames" }
    ensures { Reads result (name.now ∷ a.now ∷ []) }
{
    let a = parse_number(a)?;
    match name {
        "host" if a <= MOST => Some(Command::Host { len: a }),
        "find" => Some(Command::Find { address: a }),
        _ => None,
    }
}

fn with_two(name: &str, a: &str, b: &str) -> Option<Command>
    requires { name.now ≢ codes "frames" }
    ensures { Reads result (name.now ∷ a.now ∷ b.now ∷ []) }
{
    let a = parse_number(a)?;
    let b = parse_number(b)?;
    match name {
        "window" => Some(Command::Window { start: a, len: b }),
        "add" => Some(Command::Add { address: a, by: b }),
        "sub" => Some(Command::Sub { address: a, by: b }),
        "offset" => Some(Command::Offset {
            address: a,
            base: b,
        }),
        "mask" => Some(Command::Mask {
            address: a,
            mask: b,
        }),
        "bytes" if b <= MOST => Some(Command::Bytes { place: a, count: b }),
        _ => None,
    }
}

fn with_three(name: &str, a: &str, b: &str, c: &str) -> Option<Command>
    requires { name.now ≢ codes "frames" }
    ensures { Reads result (name.now ∷ a.now ∷ b.now ∷ c.now ∷ []) }
{
    let a = parse_number(a)?;
    let b = parse_number(b)?;
    let c = parse_number(c)?;
    match name {
        "ram" => Some(Command::Ram {
            start: a,
            len: b,
            place: c,
        }),
        "remove" => Some(Command::Remove {
            room: a,
            start: b,
            len: c,
        }),
        "slices" => Some(Command::Slices {
            address: a,
            count: b,
            access: c,
        }),
        _ => None,
    }
}

fn insert_window(name: &str, room: &str, kind: &str, start: &str, len: &str) -> Option<Command>
    requires { name.now ≢ codes "frames" }
    ensures { Reads result (name.now ∷ room.now ∷ kind.now ∷ start.now ∷ len.now ∷ []) }
{
    let room = parse_number(room)?;
    let start = parse_number(start)?;
    let len = parse_number(len)?;
    match (name, kind) {
        ("insert", "window") => Some(Command::InsertWindow { room, start, len }),
        _ => None,
    }
}

fn insert_ram(
    name: &str,
    room: &str,
    kind: &str,
    start: &str,
    len: &str,
    place: &str,
) -> Option<Command>
    requires { name.now ≢ codes "frames" }
    ensures { Reads result (name.now ∷ room.now ∷ kind.now ∷ start.now ∷ len.now ∷ place.now ∷ []) }
{
    let room = parse_number(room)?;
    let start = parse_number(start)?;
    let len = parse_number(len)?;
    let place = parse_number(place)?;
    match (name, kind) {
        ("insert", "ram") => Some(Command::InsertRam {
            room,
            start,
            len,
            place,
        }),
        _ => None,
    }
}

/// The command that the name and the words of `rest` write.
fn with_words(name: &str, rest: &str) -> Option<Command>
    requires { name.now ≢ codes "frames" }
    ensures { Reads result (name.now ∷ words rest.now) }
{
    let Some((a, rest)) = cut(rest) else {
        return with_one(name, rest);
    };
    let Some((b, rest)) = cut(rest) else {
        return with_two(name, a, rest);
    };
    let Some((c, rest)) = cut(rest) else {
        return with_three(name, a, b, rest);
    };
    let Some((d, rest)) = cut(rest) else {
        return insert_window(name, a, b, c, rest);
    };
    match cut(rest) {
        None => insert_ram(name, a, b, c, d, rest),
        Some(_) => None,
    }
}

/// The one command with any number of words: the base, and the entries if there are any.
fn with_entries(heap: Global, rest: &str) -> Result<Command, LineError>
    ensures { IfRead result (λ o. Reads o (codes "frames" ∷ words rest.now)) }
{
    let Some((word, more)) = cut(rest) else {
        let base = parse_number(rest).ok_or(LineError::Malformed)?;
        return Ok(Command::Frames {
            base,
            entries: Vec::new(heap),
        });
    };
    let base = parse_number(word).ok_or(LineError::Malformed)?;
    let entries = parse_entries(heap, more)?;
    Ok(Command::Frames { base, entries })
}

/// The command that a text writes.
pub fn read_command(heap: Global, text: &str) -> Result<Command, LineError>
    ensures { IfRead result (λ o. Reads o (words text.now)) }
{
    match cut(text) {
        None => bare(text).ok_or(LineError::Malformed),
        Some(("frames", rest)) => with_entries(heap, rest),
        Some((name, rest)) => with_words(name, rest).ok_or(LineError::Malformed),
    }
}
