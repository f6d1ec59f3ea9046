// Questions and places in their written form: views of lent numbers, nothing copied.
ghost use Rattle.std.specs.Prelude.{◌≡◌, ◌%◌, true, length, is_some};
ghost use Rattle.guards.specs.Laws.{WrittenForm};
ghost use Rattle.guards.specs.Questions.{reading};

use crate::step::Step;
use crate::unread::Unread;

/// The most places that a question asks about.
pub(crate) const MOST_PLACES: u16 = 4;

/// The most steps of a place in a question that is listed with its answer.
pub(crate) const MOST_LISTED_STEPS: u16 = 16;

/// A place: two numbers for each step.
// No `impl Model`: the check refuses one beside `Copy` on a struct with a lifetime.
#[derive(Clone, Copy)]
pub struct WrittenPlace<'a> {
    pub(crate) numbers: &'a [u16],
    ghost whole: { length numbers.now % 2 ≡ 0 },
}

impl<'a> WrittenPlace<'a> {
    ghost use Rattle.std.specs.List.{slice_get};
    ghost use Rattle.guards.specs.Questions.{written_steps};
    ghost use Rattle.guards.specs.Views.{place_of};

    /// The numbers of the steps: each one's constructor and field.
    #[tactic(auto, using(crate::proofs::Pairs::written_steps_in))]
    pub fn numbers(&self) -> &'a [u16]
        ensures { result.now ≡ written_steps (place_of self.now) }
    {
        self.numbers
    }

    /// The number of steps.
    #[tactic(auto, using(crate::proofs::Pairs::steps_in_length))]
    pub fn step_count(&self) -> usize
        ensures { result ≡ length (place_of self.now) }
    {
        self.numbers.len() / 2
    }

    /// One step, counted from the root.
    pub fn step(&self, i: usize) -> Option<Step>
        ensures { result ≡ slice_get (place_of self.now) i }
    {
        let (steps, _) = self.numbers.as_chunks::<2>();
        let [constructor, field] = *steps.get(i)?;
        Some(Step { constructor, field })
    }
}

/// A question. Only reading makes one, so its numbers say one whole question.
// No `impl Model`, as for a place.
#[derive(Clone, Copy)]
pub struct WrittenQuestion<'a> {
    pub(crate) numbers: &'a [u16],
    ghost whole: { is_some (reading numbers.now) ≡ true },
}

impl<'a> WrittenQuestion<'a> {
    ghost use Rattle.std.specs.Prelude.{◌≤◌, Decides};
    ghost use Rattle.std.specs.Option.{option_map};
    ghost use Rattle.std.specs.List.{slice_get};
    ghost use Rattle.guards.specs.Questions.{Within, written};
    ghost use Rattle.guards.specs.Views.{place_of, question_of};

    /// The question that the numbers say, if they are one whole question of at most four places.
    pub fn read(numbers: &'a [u16]) -> Option<WrittenQuestion<'a>>
        ensures { option_map question_of result ≡ reading numbers.now }
    {
        let unread = Unread {
            numbers,
            most_steps: u16::MAX,
        };
        let (question, rest) = unread.question()?;
        rest.is_empty().then_some(question)
    }

    /// The numbers in which the question is written.
    #[tactic(auto, using(crate::proofs::Reading::whole_written, crate::proofs::Reading::in_within))]
    pub fn numbers(&self) -> &'a [u16]
        ensures value { result.now ≡ written (question_of self.now) }
        ensures within { Within 65535 (question_of self.now) }
    {
        self.numbers
    }

    /// The guard that asks.
    pub fn guard(&self) -> u16
        ensures { result ≡ (question_of self.now).guard }
    {
        self.numbers()[0]
    }

    /// The number of places that the guard asks about.
    pub fn place_count(&self) -> usize
        ensures value { result ≡ length (question_of self.now).places }
        ensures bound { result ≤ 4 }
    {
        usize::from(self.numbers()[1])
    }

    /// One of the places, counted from 0.
    pub fn place(&self, i: usize) -> Option<WrittenPlace<'a>>
        ensures { option_map place_of result ≡ slice_get (question_of self.now).places i }
    {
        let places = Unread {
            numbers: &self.numbers[2..],
            most_steps: u16::MAX,
        };
        let (place, _) = places.after_places(i)?.place()?;
        Some(place)
    }

    /// Whether the question can be listed with its answer: whether no place has over 16 steps.
    pub fn is_listable(&self) -> bool
        ensures { Decides result (Within 16 (question_of self.now)) }
    {
        let unread = Unread {
            numbers: self.numbers,
            most_steps: MOST_LISTED_STEPS,
        };
        unread.question().is_some()
    }
}

// Equal questions are those with equal numbers. By hand: a derived `==` would speak of private numbers, not of questions.
impl PartialEq for WrittenQuestion<'_> {
    ghost use Rattle.std.specs.Prelude.{Decides};
    ghost use Rattle.std.specs.Cmp.{on_per, partial_equiv_from_equiv};
    ghost use Rattle.std.proofs.lemmas.Cmp.{nat_list_eq_equiv};
    ghost use Rattle.guards.specs.Questions.{written, same_question};
    ghost use Rattle.guards.specs.Views.{question_of};

    ghost eq = { λ a b. same_question (question_of a) (question_of b) };

    ghost laws = { on_per (λ w. written (question_of w)) (partial_equiv_from_equiv nat_list_eq_equiv) };

    #[tactic(auto, using(crate::proofs::Reading::whole_written, crate::proofs::Listing::same_decides))]
    fn eq(&self, other: &Self) -> bool
        ensures test { result ≡ same_question (question_of self.now) (question_of other.now) }
        ensures same { Decides result (question_of self.now ≡ question_of other.now) }
    {
        self.numbers == other.numbers
    }
}

impl Eq for WrittenQuestion<'_> {
    ghost use Rattle.std.specs.Cmp.{on_equiv};
    ghost use Rattle.std.proofs.lemmas.Cmp.{nat_list_eq_equiv};
    ghost use Rattle.guards.specs.Questions.{written};
    ghost use Rattle.guards.specs.Views.{question_of};

    ghost laws = { on_equiv (λ w. written (question_of w)) nat_list_eq_equiv };
}

/// Whether a question that is written and read again is that question: always.
// It keeps its answer, since it does what the law that it carries is about.
#[tactic(auto, using(crate::proofs::Listing::reads_same, crate::proofs::Listing::written_form))]
pub fn reads_back(question: &WrittenQuestion<'_>) -> bool
    ensures always { result ≡ true }
    ensures law { WrittenForm }
{
    WrittenQuestion::read(question.numbers()) == Some(*question)
}
