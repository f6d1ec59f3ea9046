// Runs that put questions to any host.
ghost use Rattle.std.specs.Prelude.{◌≡◌, map};
ghost use Rattle.guards.specs.Counts.{counted};
ghost use Rattle.guards.specs.Hosts.{answered};
ghost use Rattle.guards.specs.Listed.{listed_rule};
ghost use Rattle.guards.specs.Runs.{first_yes, until_yes};
ghost use Rattle.guards.specs.Views.{question_of};

use crate::Host;
use crate::counting::Counting;
use crate::listed::ListedAnswers;
use crate::written::WrittenQuestion;

/// The index of the first question that gets a yes; no question after it is asked.
#[tactic(auto, using(crate::proofs::Asking::next_is, crate::proofs::Asking::run_goes, crate::proofs::Asking::run_found))]
pub fn first_yes<H: Host>(host: &mut H, questions: &[WrittenQuestion<'_>]) -> Option<usize>
    ensures answer { result ≡ first_yes (H.rule host.old) (map question_of questions.now) }
    ensures same { H.rule host.new ≡ H.rule host.old }
    ensures noted { H.moved host.old (answered (H.rule host.old) (until_yes (H.rule host.old) (map question_of questions.now))) host.new }
{
    for (i, question) in questions.iter().enumerate() {
        if host.ask(question) {
            return Some(i);
        }
    }
    None
}

/// Puts questions to listed answers up to the first yes, and says how many it put.
pub fn first_listed_yes<'a>(
    numbers: &'a [u16],
    questions: &[WrittenQuestion<'_>],
) -> (Option<usize>, Counting<ListedAnswers<'a>>)
    ensures answer { result.0 ≡ first_yes (listed_rule numbers.now) (map question_of questions.now) }
    ensures asked { result.1.asked ≡ counted 0 (answered (listed_rule numbers.now) (until_yes (listed_rule numbers.now) (map question_of questions.now))) }
    ensures below { result.1.host.numbers.now ≡ numbers.now }
{
    let mut host = Counting::new(ListedAnswers { numbers });
    let found = first_yes(&mut host, questions);
    (found, host)
}
