// Answers that are listed: questions, each followed by 1 for yes or 0 for no.
ghost use Rattle.std.specs.Prelude.{◌≡◌};
ghost use Rattle.std.specs.Iterator.{YieldsFirstBy, item_count};
ghost use Rattle.guards.specs.Hosts.{unmoved};
ghost use Rattle.guards.specs.Listed.{answers_in, listed_rule};
ghost use Rattle.guards.specs.Views.{question_of};

use crate::Host;
use crate::unread::Unread;
use crate::written::{MOST_LISTED_STEPS, WrittenQuestion};

/// A host that answers by a list: the first equal question decides, and one that is not listed gets no.
/// What is no entry ends the list: a question cut short, of over four places or of over 16 steps in one,
/// or an answer that is neither 1 nor 0.
// A slice as it is lent: any numbers are a list of answers, up to where none can be read.
#[derive(Clone, Copy)]
pub struct ListedAnswers<'a> {
    pub numbers: &'a [u16],
}

// The entries of a list, each a question with its answer, up to where none can be read.
#[derive(Drop)]
struct Entries<'a> {
    numbers: &'a [u16],
}

impl<'a> Iterator for Entries<'a> {
    type Item = (WrittenQuestion<'a>, bool);

    ghost next_gives = { YieldsFirstBy (λ e. (question_of e.0, e.1)) (λ s. answers_in s.numbers.now) };

    ghost remaining = { item_count (λ s. answers_in s.numbers.now) };

    fn next(&mut self) -> Option<(WrittenQuestion<'a>, bool)> {
        let unread = Unread {
            numbers: self.numbers,
            most_steps: MOST_LISTED_STEPS,
        };
        let (question, rest) = unread.question()?;
        let (answer, rest) = rest.split_first()?;
        // two looks: tried as a `match` with an arm for 0 and one for 1, after which both goals stay open
        if *answer > 1 {
            return None;
        }
        self.numbers = rest;
        Some((question, *answer == 1))
    }
}

impl<'a> Host for ListedAnswers<'a> {
    ghost rule = { λ h. listed_rule h.numbers.now };

    ghost moved = { λ a asked b. a ≡ b };

    ghost laws = { unmoved };

    fn ask(&mut self, question: &WrittenQuestion<'_>) -> bool {
        Entries {
            numbers: self.numbers,
        }
        .find(|(listed, _)| *listed == *question)
        .is_some_and(|(_, answer)| answer)
    }
}
