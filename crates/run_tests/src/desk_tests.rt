//! A line that isn't kept is answered without a session.

use std::test::Fail;
use tt_desk::{Outcome, Refusal, refuse_long_line};
use tt_text::Reply;

#[test]
fn a_long_line_is_refused(rt: HostRuntime) -> Result<(), Fail> {
    let mut reply = Reply::new(rt.alloc())?;
    reply.text("left from the line before\n")?;
    let outcome = refuse_long_line(&mut reply);
    assert!(rt; outcome == Outcome::Refused(Refusal::BadLine));
    assert_eq!(rt; reply.bytes(), b"refused 10 bad line\n".as_slice());
    Ok(())
}
