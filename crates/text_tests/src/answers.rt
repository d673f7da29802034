//! The lines of an answer.
use crate::made::made;
use at_text::AnswerLines;
use std::test::*;

#[test]
fn lines_come_as_they_were_put(rt: HostRuntime) {
    let mut lines = AnswerLines::new(rt.alloc());
    assert!(rt; lines.last().is_none());
    for line in [b"+CSQ: 18,99".as_slice(), b"".as_slice(), b"OK".as_slice()] {
        made(&rt, lines.push(line));
    }
    assert!(rt; lines.len() == 3 && lines.line(1) == b"".as_slice());
    assert!(rt; lines.last() == Some(b"OK".as_slice()));
    let copy = made(&rt, lines.copy());
    assert!(rt; lines == copy);
    made(&rt, lines.push(b""));
    assert!(rt; lines != copy);
    let mut left = copy.iter();
    assert!(rt; left.next() == Some(b"+CSQ: 18,99".as_slice()));
    assert!(rt; left.next() == Some(b"".as_slice()) && left.next() == Some(b"OK".as_slice()));
    assert!(rt; left.next().is_none());
}
