//! Printed lines.
use calls::answer::Verdict;
use printing::line::{
    bad_line, end_line, open_line, refused_line, struck_line, taken_line, verdict_line,
};
use refusals::refusal::Refusal;
use shelves::taken::Taken;
use std::test::Fail;
use words::error::ReadError;

#[test]
fn answers(rt: HostRuntime) -> Result<(), Fail> {
    assert_eq!(rt;
        taken_line(rt.alloc(), 9, Taken::At(3))?.as_str(),
        "9 at 3\n"
    );
    assert_eq!(rt;
        taken_line(rt.alloc(), 9, Taken::Already)?.as_str(),
        "9 already\n"
    );
    let verdict = Verdict::NotEntailed { query: 3, size: 12 };
    assert_eq!(rt;
        verdict_line(rt.alloc(), 28, verdict)?.as_str(),
        "28 not-entailed 3 12\n"
    );
    Ok(())
}

#[test]
fn refusals(rt: HostRuntime) -> Result<(), Fail> {
    let refusal = Refusal::TermNotAllowed { atom: 0, term: 1 };
    assert_eq!(rt;
        refused_line(rt.alloc(), 7, refusal)?.as_str(),
        "7 refused 5 0 1\n"
    );
    assert_eq!(rt; bad_line(rt.alloc(), 4, refusal)?.as_str(), "bad 4 5\n");
    Ok(())
}

#[test]
fn checks(rt: HostRuntime) -> Result<(), Fail> {
    assert_eq!(rt; open_line(rt.alloc(), 1)?.as_str(), "1 open\n");
    assert_eq!(rt; struck_line(rt.alloc(), 2)?.as_str(), "2 struck\n");
    assert_eq!(rt; end_line(rt.alloc())?.as_str(), "end struck\n");
    Ok(())
}

#[test]
fn errors(rt: HostRuntime) -> Result<(), Fail> {
    let broken = ReadError::Broken;
    assert_eq!(rt; format!(in rt.alloc(); "{broken}")?.as_str(), "broken form");
    Ok(())
}
