// Guards are answered from a list of questions with their answers.
use guards::{Counting, Host, ListedAnswers, WrittenQuestion};

// Guard 3 about field 0 of constructor 1: no; about field 1: yes.
const LISTED: [u16; 12] = [3, 1, 1, 1, 0, 0, 3, 1, 1, 1, 1, 1];

fn ask<H: Host>(rt: &impl Print, host: &mut H, numbers: &[u16]) -> anyhow::Result<()> {
    let Some(question) = WrittenQuestion::read(numbers) else {
        println!(rt; "  no question")?;
        return Ok(());
    };
    let guard = question.guard();
    let places = question.place_count();
    let answer = crate::yes_or_no(host.ask(&question));
    println!(rt; "  guard {guard} (places: {places}): {answer}")?;
    Ok(())
}

pub fn show(rt: &impl Print) -> anyhow::Result<()> {
    println!(rt; "guards, answered from a list of two:")?;
    let mut host = Counting::new(ListedAnswers { numbers: &LISTED });
    ask(rt, &mut host, &LISTED[0..5])?;
    ask(rt, &mut host, &LISTED[6..11])?;
    ask(rt, &mut host, &[4, 0])?;
    ask(rt, &mut host, &[4, 1])?;
    let asked = host.asked;
    println!(rt; "  {asked} questions were put")?;
    Ok(())
}
