// The answer of a memory, whatever its kind.
ghost use Rattle.answers.specs.Failures.{Settles};
ghost use Rattle.survey.specs.Questions.{Answers};

use crate::question::Question;
use answers::Answer;
use answers::failure::Failure;
use asks::memory::{find, slices};
use backend::backend::Surveyed;
use std::alloc::Global;

/// The answer of a memory of any kind.
pub fn ask_memory<M: Surveyed>(
    heap: Global,
    memory: &M,
    question: Question,
) -> Result<Answer, Failure>
    ensures { Settles result (λ x. M.GuestMemoryBackend.lawful memory.now → Answers (M.GuestMemoryBackend.meant memory.now) question x) }
{
    match question {
        Question::Count => Ok(Answer::Number(memory.num_regions() as u64)),
        Question::Find(address) => Ok(find(memory, address)),
        Question::Last => Ok(Answer::Number(memory.last_addr().0)),
        Question::Slices {
            address,
            count,
            access,
        } => slices(heap, memory, address, count, access),
    }
}
