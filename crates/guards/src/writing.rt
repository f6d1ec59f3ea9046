// Writing places and listed answers into numbers that are lent, so that nothing asks for memory: how many were written is handed back.
ghost use Rattle.std.specs.Prelude.{◌≡◌};
ghost use Rattle.guards.specs.Laws.{ListedForm};
ghost use Rattle.guards.specs.Views.{question_of};
ghost use Rattle.guards.specs.Writing.{put_place, put_answer};

use crate::step::Step;
use crate::written::WrittenQuestion;

/// Writes a place to the front, and says how many numbers it takes: nothing, if there is no room or it has over 65,535 steps.
#[tactic(auto, using(crate::proofs::Putting::head_set, crate::proofs::Putting::place_done, crate::proofs::Putting::place_full))]
pub fn write_place(out: &mut [u16], steps: &[Step]) -> Option<usize>
    ensures { (result, out.new) ≡ put_place steps.now out.old }
{
    let count = u16::try_from(steps.len()).ok()?;
    let end = 1 + 2 * steps.len();
    if out.len() < end {
        return None;
    }
    out[0] = count;
    // by index: after `iter_mut` or `chunks_mut` a proof knows the length of `out` and not its numbers
    for (i, step) in steps.iter().enumerate() {
        out[2 * i + 1] = step.constructor;
        out[2 * i + 2] = step.field;
    }
    Some(end)
}

/// Writes a question with its answer to the front, as listed answers have it, and says how many numbers that takes: nothing, if there is no room.
#[tactic(auto, using(crate::proofs::Putting::answer_put, crate::proofs::Listing::listed_form))]
pub fn write_answer(out: &mut [u16], question: &WrittenQuestion<'_>, answer: bool) -> Option<usize>
    ensures written { (result, out.new) ≡ put_answer (question_of question.now, answer) out.old }
    ensures law { ListedForm }
{
    let numbers = question.numbers();
    let end = numbers.len();
    if out.len() <= end {
        return None;
    }
    out[..end].copy_from_slice(numbers);
    out[end] = u16::from(answer);
    Some(end + 1)
}
