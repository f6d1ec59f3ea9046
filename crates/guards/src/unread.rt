// Numbers that are still to be read, from the front: places and questions.
use crate::written::{MOST_PLACES, WrittenPlace, WrittenQuestion};

// Numbers to read, and the most steps that a place among them may have.
#[derive(Clone, Copy)]
pub(crate) struct Unread<'a> {
    pub(crate) numbers: &'a [u16],
    pub(crate) most_steps: u16,
}

impl<'a> Unread<'a> {
    ghost use Rattle.std.specs.Prelude.{◌≡◌, IfSome};
    ghost use Rattle.std.specs.Option.{option_map};
    ghost use Rattle.guards.specs.Questions.{read_place, read_places, read_question};
    ghost use Rattle.guards.specs.Views.{place_of, question_of};

    // The place at the front, and what is left.
    pub(crate) fn place(self) -> Option<(WrittenPlace<'a>, Unread<'a>)>
        ensures read { option_map (λ p. (place_of p.0, p.1.numbers.now)) result ≡ read_place self.entry.most_steps self.entry.numbers.now }
        ensures same { IfSome result (λ p. p.1.most_steps ≡ self.entry.most_steps) }
    {
        let (count, rest) = self.numbers.split_first()?;
        if *count > self.most_steps {
            return None;
        }
        let (numbers, rest) = rest.split_at_checked(2 * usize::from(*count))?;
        Some((
            WrittenPlace { numbers },
            Unread {
                numbers: rest,
                ..self
            },
        ))
    }

    // What is left after so many places.
    pub(crate) fn after_places(self, count: usize) -> Option<Unread<'a>>
        ensures read { option_map (λ u. u.numbers.now) result ≡ option_map (λ p. p.1) (read_places self.entry.most_steps count self.entry.numbers.now) }
        ensures same { IfSome result (λ u. u.most_steps ≡ self.entry.most_steps) }
    {
        let mut unread = self;
        for _ in 0..count {
            (_, unread) = unread.place()?;
        }
        Some(unread)
    }

    // The question at the front, and the numbers that are left.
    #[tactic(auto, using(crate::proofs::Reading::after_question, crate::proofs::Reading::rest_shorter))]
    pub(crate) fn question(self) -> Option<(WrittenQuestion<'a>, &'a [u16])>
        ensures { option_map (λ p. (question_of p.0, p.1.now)) result ≡ read_question self.entry.most_steps self.entry.numbers.now }
    {
        let [_, count, places @ ..] = self.numbers else {
            return None;
        };
        if *count > MOST_PLACES {
            return None;
        }
        let places = Unread {
            numbers: places,
            ..self
        };
        let rest = places.after_places(usize::from(*count))?.numbers;
        let numbers = &self.numbers[..self.numbers.len() - rest.len()];
        Some((WrittenQuestion { numbers }, rest))
    }
}
