// What a line of a script asks for.
#![tactic(auto)]

ghost use Rattle.commands.specs.Commands.{Tells};

use std::alloc::Global;

mod forms;

pub use words::LineError;

/// One command, with its numbers.
#[derive(Drop)]
pub enum Command {
    Host {
        len: u64,
    },
    Ram {
        start: u64,
        len: u64,
        place: u64,
    },
    Window {
        start: u64,
        len: u64,
    },
    Collect,
    Frames {
        base: u64,
        entries: Vec<u32>,
    },
    InsertRam {
        room: u64,
        start: u64,
        len: u64,
        place: u64,
    },
    InsertWindow {
        room: u64,
        start: u64,
        len: u64,
    },
    Remove {
        room: u64,
        start: u64,
        len: u64,
    },
    Count,
    Find {
        address: u64,
    },
    Last,
    Add {
        address: u64,
        by: u64,
    },
    Sub {
        address: u64,
        by: u64,
    },
    Offset {
        address: u64,
        base: u64,
    },
    Mask {
        address: u64,
        mask: u64,
    },
    Slices {
        address: u64,
        count: u64,
        /// The raw value: it is asked whether it is one only where there is a memory.
        access: u64,
    },
    Bytes {
        place: u64,
        count: u64,
    },
    Digest,
}

/// Reads one line, which comes without its newline.
/// An empty line, one of blanks and a comment ask for nothing; any other line that is no command,
/// or no text in UTF-8, is malformed.
pub fn read_line(heap: Global, line: &[u8]) -> Result<Option<Command>, LineError>
    ensures { Tells result line.now }
{
    let text = std::str::from_utf8(line).map_err(|_| LineError::Malformed)?;
    if words::is_idle(text) {
        return Ok(None);
    }
    Ok(Some(forms::read_command(heap, text)?))
}
