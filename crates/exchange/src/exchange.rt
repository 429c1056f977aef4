// An exchange: a box, once there is one, and the commands that it is given.
ghost use Rattle.std.specs.Prelude.{◌≡◌, IfOk, None};
ghost use Rattle.std.specs.Option.{ForSome};
ghost use Rattle.answers.specs.Failures.{Settles};
ghost use Rattle.guest_box.specs.Memories.{Kept};
ghost use Rattle.exchange.specs.Performs.{ram_slot, window_slot, Adds, Performed, Performs};

use address::address::GuestAddress;
use answers::Answer;
use answers::failure::{Failure, settled};
use asks::numbers;
use commands::Command;
use guest_box::guest_box::GuestBox;
use pieces::piece::Piece;
use region::slot::{RamRegion, SlotRegion};
use std::alloc::{AllocError, Global};
use survey::question::Question;

// a start and a length go side by side, as a command has them

/// A RAM region by its numbers.
fn ram(start: u64, len: u64, place: u64) -> SlotRegion
    ensures { result ≡ ram_slot start len place }
{
    SlotRegion::Ram(RamRegion {
        start: GuestAddress(start),
        len,
        place,
    })
}

/// A window by its numbers.
fn window(start: u64, len: u64) -> SlotRegion
    ensures { result ≡ window_slot start len }
{
    SlotRegion::Window {
        start: GuestAddress(start),
        len,
    }
}

/// Adds a region to those to collect.
fn add(guest: &mut GuestBox, region: SlotRegion) -> Result<Answer, Failure>
    ensures answer { Settles result (λ x. Adds guest.old region x guest.new) }
    ensures kept { Kept guest.new }
{
    guest.add_region(region)?;
    Ok(Answer::Done)
}

/// Performs a command that needs a box.
fn perform_in(guest: &mut GuestBox, heap: Global, command: Command) -> Result<Answer, Failure>
    requires { Kept guest.old }
    ensures answer { Settles result (λ x. Performed guest.old command x guest.new) }
    ensures kept { Kept guest.new }
{
    match command {
        Command::Ram { start, len, place } => add(guest, ram(start, len, place)),
        Command::Window { start, len } => add(guest, window(start, len)),
        Command::Collect => Ok(guest.collect(heap)),
        Command::Frames { base, entries } => Ok(guest.frame(base, entries)),
        Command::InsertRam {
            room,
            start,
            len,
            place,
        } => guest.insert(heap, room, ram(start, len, place)),
        Command::InsertWindow { room, start, len } => guest.insert(heap, room, window(start, len)),
        Command::Remove { room, start, len } => guest.remove(heap, room, start, len),
        Command::Count => guest.ask(heap, Question::Count),
        Command::Find { address } => guest.ask(heap, Question::Find(address)),
        Command::Last => guest.ask(heap, Question::Last),
        Command::Slices {
            address,
            count,
            access,
        } => guest.ask(
            heap,
            Question::Slices {
                address,
                count,
                access,
            },
        ),
        Command::Bytes { place, count } => guest.bytes(heap, Piece { place, len: count }),
        Command::Digest => Ok(guest.digest()),
        _ => Err(Failure::Error),
    }
}

/// The box of a script, which has none before its first host bytes.
#[derive(Drop)]
pub struct Exchange {
    inner: Option<GuestBox>,
    // the box's own, for those who see the exchange alone
    pub ghost kept: { ForSome inner Kept },
}

impl Exchange {
    /// An exchange without a box.
    pub fn new() -> Exchange
        ensures { result.inner ≡ None }
    {
        Exchange { inner: None }
    }

    /// Performs a command, and answers it.
    pub fn perform(&mut self, heap: Global, command: Command) -> Result<Answer, AllocError>
        ensures { IfOk result (λ x. Performs self.old.inner command x self.new.inner) }
    {
        match command {
            Command::Add { address, by } => Ok(numbers::add(address, by)),
            Command::Sub { address, by } => Ok(numbers::sub(address, by)),
            Command::Offset { address, base } => Ok(numbers::offset(address, base)),
            Command::Mask { address, mask } => Ok(numbers::mask(address, mask)),
            Command::Host { len } => {
                self.inner = Some(GuestBox::new(heap, len)?);
                Ok(Answer::Done)
            }
            other => settled(match &mut self.inner {
                Some(guest) => perform_in(guest, heap, other),
                None => Err(Failure::Error),
            }),
        }
    }
}
