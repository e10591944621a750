//! Frames of bundles.
use frames::frame::read_frame;
use std::test::Fail;
use words::error::ReadError;

#[test]
fn frames(rt: HostRuntime) -> Result<(), Fail> {
    let frame = read_frame(rt.alloc(), b"P 1\nF 0\nT 0\nN 0\nQ 0\nD 1\n2\nR\n")?;
    assert_eq!(rt; frame.lines.len(), 8);
    assert_eq!(rt; frame.sizes.as_slice(), [1, 0, 0, 0, 0, 1].as_slice());
    Ok(())
}

#[test]
fn broken(rt: HostRuntime) -> Result<(), Fail> {
    let short = read_frame(rt.alloc(), b"P 1\nF 0\nT 0\nN 0\nQ 0\nD 0\n");
    assert_eq!(rt; short.err(), Some(ReadError::Broken));
    let unended = read_frame(rt.alloc(), b"P 0\nF 0\nT 0\nN 0\nQ 0\nD 0");
    assert_eq!(rt; unended.err(), Some(ReadError::Broken));
    Ok(())
}
