// A host over any other that counts the questions put to it.
ghost use Rattle.std.specs.Prelude.{◌≡◌};
ghost use Rattle.guards.specs.Counts.{CountingMoved, CountingMoved-Moves};

use crate::Host;
use crate::written::WrittenQuestion;

/// Answers as the host below, and counts the questions, up to 4,294,967,295.
#[derive(Drop)]
pub struct Counting<H> {
    pub host: H,
    pub asked: u32,
}

impl<H> Counting<H> {
    /// A host that has counted nothing.
    pub fn new(host: H) -> Counting<H>
        ensures { result ≡ record { host = host; asked = 0 } }
    {
        Counting { host, asked: 0 }
    }
}

impl<H: Host> Host for Counting<H> {
    ghost rule = { λ c. H.Host.rule c.host };

    ghost moved = { CountingMoved H.Host.moved };

    ghost laws = { CountingMoved-Moves H.Host.moved H.Host.laws };

    fn ask(&mut self, question: &WrittenQuestion<'_>) -> bool {
        self.asked = self.asked.saturating_add(1);
        self.host.ask(question)
    }
}
