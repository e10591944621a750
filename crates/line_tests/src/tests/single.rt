//! Lines of each kind.
use kinds::line::{arity, fact, list, request, rule};
use kinds::request::Request;
use std::test::Fail;
use words::error::ReadError;

#[test]
fn facts(rt: HostRuntime) -> Result<(), Fail> {
    let read = fact(rt.alloc(), b"3 11 21")?;
    assert_eq!(rt; read.predicate(), 3);
    assert_eq!(rt; read.count(), 2);
    Ok(())
}

#[test]
fn broken(rt: HostRuntime) -> Result<(), Fail> {
    assert_eq!(rt; arity(rt.alloc(), b"4 ").err(), Some(ReadError::Broken));
    assert_eq!(rt; arity(rt.alloc(), b"04").err(), Some(ReadError::Broken));
    assert_eq!(rt; arity(rt.alloc(), b"").err(), Some(ReadError::Broken));
    assert_eq!(rt; arity(rt.alloc(), b"4")?, 4);
    Ok(())
}

#[test]
fn lists(rt: HostRuntime) -> Result<(), Fail> {
    let read = list(rt.alloc(), b"2 v1,3 v1 21")?;
    assert_eq!(rt; read.len(), 2);
    let rule = rule(rt.alloc(), b"1 v1,3 v1 v2;6 v1 v2 v3")?;
    assert_eq!(rt; rule.body.len(), 2);
    assert_eq!(rt; rule.head.count(), 3);
    Ok(())
}

#[test]
fn requests(rt: HostRuntime) -> Result<(), Fail> {
    match request(rt.alloc(), b"S 2 6")? {
        Request::Step { rule, place } => {
            assert_eq!(rt; rule, 2);
            assert_eq!(rt; place, 6);
        }
        _ => return Err(Fail::new("no step")),
    }
    assert!(rt; matches!(request(rt.alloc(), b"K")?, Request::Strike));
    Ok(())
}
