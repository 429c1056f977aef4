// A line of a script, read and performed.
ghost use Rattle.std.specs.Prelude.{IfOk};
ghost use Rattle.exchange.specs.Lines.{AnswersLine};

use crate::exchange::Exchange;
use answers::Answer;
use commands::{LineError, read_line};
use std::alloc::{AllocError, Global};

impl Exchange {
    /// What a line, without its newline, is answered, if anything.
    pub fn answer(&mut self, heap: Global, line: &[u8]) -> Result<Option<Answer>, AllocError>
        ensures { IfOk result (λ o. AnswersLine line.now self.old.inner o self.new.inner) }
    {
        // here the failures of reading and of asking meet: the crates that have them do not know each
        // other
        match read_line(heap, line) {
            Ok(None) => Ok(None),
            Ok(Some(command)) => Ok(Some(self.perform(heap, command)?)),
            Err(LineError::Malformed) => Ok(Some(Answer::Error)),
            Err(LineError::Alloc(error)) => Err(error),
        }
    }
}
