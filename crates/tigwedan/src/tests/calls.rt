// Files of calls, and what is reported of their answers.
use player::calls::{Answer, Call};
use std::test::Fail;
use text::entries::read_all;
use text::transcript::answers::AnswerLines;
use text::transcript::step::{Step, calls_of};

#[test]
fn each_step_makes_its_call(rt: HostRuntime) -> Result<(), Fail> {
    let steps = read_all::<Step>(rt.alloc(), b"skip 9\n# nothing\nfill 2\nnext\nrewind")?;
    let calls = calls_of(rt.alloc(), steps.as_slice())?;
    assert_eq!(rt; calls.len(), 4);
    assert!(rt; matches!(calls[0], Call::Skip(9)));
    assert!(rt; matches!(calls[3], Call::Rewind));
    Ok(())
}

#[test]
fn each_answer_has_a_line(rt: HostRuntime) -> Result<(), Fail> {
    let steps = read_all::<Step>(rt.alloc(), b"skip 9\nnext\nrewind")?;
    let answers = vec![in rt.alloc();
        Answer::Skipped(Ok(7)),
        Answer::Item(Ok(None)),
        Answer::Rewound,
    ]?;
    let lines = AnswerLines {
        steps: steps.as_slice(),
        answers: answers.as_slice(),
    };
    let text = format!(in rt.alloc(); "{lines}")?;
    assert_eq!(rt; text.as_str(), "skip 9: 7\nnext: no item\nrewind: done\n");
    Ok(())
}
