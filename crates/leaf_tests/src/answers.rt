// Questions in their written form, and listed answers that are cut or damaged.
use guards::{Host, ListedAnswers, WrittenQuestion};
use std::test::Fail;

// Guard 3 about field 0 and about field 1 of constructor 1.
const LEFT: [u16; 5] = [3, 1, 1, 1, 0];

const RIGHT: [u16; 5] = [3, 1, 1, 1, 1];
// No for the left, yes for the right.
const LISTED: [u16; 12] = [3, 1, 1, 1, 0, 0, 3, 1, 1, 1, 1, 1];

fn says(numbers: &[u16], question: &[u16]) -> Result<bool, Fail> {
    let question = WrittenQuestion::read(question).ok_or("no question")?;
    Ok(ListedAnswers { numbers }.ask(&question))
}

#[test]
fn the_first_equal_question_decides(rt: HostRuntime) -> Result<(), Fail> {
    assert!(rt; !says(&LISTED, &LEFT)? && says(&LISTED, &RIGHT)?);
    assert!(rt; !says(&LISTED, &[4, 1, 1, 1, 1])?);
    assert!(rt; says(&[3, 0, 1, 3, 0, 0], &[3, 0])?);
    Ok(())
}

#[test]
fn answers_cut_at_every_length(rt: HostRuntime) -> Result<(), Fail> {
    for end in 0..=LISTED.len() {
        assert!(rt; !says(&LISTED[..end], &LEFT)?);
        assert_eq!(rt; says(&LISTED[..end], &RIGHT)?, end == 12);
    }
    Ok(())
}

#[test]
fn what_is_no_answer_ends_the_list(rt: HostRuntime) -> Result<(), Fail> {
    assert!(rt; !says(&[9, 0, 2, 3, 0, 1], &[3, 0])?);
    assert!(rt; !says(&[9, 5, 0, 0, 0, 0, 0, 1, 3, 0, 1], &[3, 0])?);
    assert!(rt; !says(&[9, 1, 17, 3, 0, 1], &[3, 0])?);
    Ok(())
}

#[test]
fn questions_are_read_whole(rt: HostRuntime) -> Result<(), Fail> {
    assert!(rt;
        WrittenQuestion::read(&[3]).is_none()
            && WrittenQuestion::read(&[3, 5, 0, 0, 0, 0, 0]).is_none()
    );
    assert!(rt;
        WrittenQuestion::read(&[3, 1, 1, 1]).is_none()
            && WrittenQuestion::read(&[3, 0, 0]).is_none()
    );
    let question = WrittenQuestion::read(&LEFT).ok_or("no question")?;
    assert!(rt; question.guard() == 3 && question.place_count() == 1);
    let place = question.place(0).ok_or("no place")?;
    let step = place.step(0).ok_or("no step")?;
    assert!(rt;
        step.constructor == 1
            && step.field == 0
            && place.step(1).is_none()
            && question.place(1).is_none()
    );
    Ok(())
}

#[test]
fn questions_are_equal_by_their_numbers(rt: HostRuntime) -> Result<(), Fail> {
    let left = WrittenQuestion::read(&LEFT).ok_or("no question")?;
    let right = WrittenQuestion::read(&RIGHT).ok_or("no question")?;
    let listed = WrittenQuestion::read(&LISTED[..5]).ok_or("no question")?;
    assert!(rt; left == listed && left != right && right != listed);
    Ok(())
}
