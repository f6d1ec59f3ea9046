// Questions that a guard asks about places, their written form, and hosts that answer them.
#![tactic(auto)]

ghost use Rattle.std.specs.Prelude.{◌≡◌, Bool, List, [], ◌∷◌};
ghost use Rattle.guards.specs.Hosts.{Asked, Moves};
ghost use Rattle.guards.specs.Questions.{Question};
ghost use Rattle.guards.specs.Views.{question_of};

pub mod counting;
pub mod listed;
pub mod runs;
pub mod step;
mod unread;
pub mod writing;
pub mod written;

pub use counting::Counting;
pub use listed::ListedAnswers;
pub use runs::{first_listed_yes, first_yes};
pub use step::Step;
pub use writing::{write_answer, write_place};
pub use written::{WrittenPlace, WrittenQuestion, reads_back};

/// What answers questions: by one rule, that asking leaves as it was.
pub trait Host {
    // The answer rule: the yes or no that each question gets.
    ghost rule: { Self → Question → Bool };

    // `moved a asked b`: a host that held a and was then asked these questions, with these answers, holds b.
    ghost moved: { Self → List Asked → Self → Type 0 };

    ghost laws: { Moves moved };

    fn ask(&mut self, question: &WrittenQuestion<'_>) -> bool
        ensures answer { result ≡ rule self.old (question_of question.now) }
        ensures same { rule self.new ≡ rule self.old }
        ensures noted { moved self.old ((question_of question.now, result) ∷ []) self.new };
}
