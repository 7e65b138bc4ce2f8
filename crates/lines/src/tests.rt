// Lines and scripts by value, read byte by byte.
use crate::line::{Line, Reading};
use crate::script::{Broken, Script, Taken};
use std::test::Fail;

// The script after bytes with each of which its item goes on.
fn goes(script: Script, bytes: &[u8]) -> Option<Script> {
    let mut after = script;
    for b in bytes {
        match after.take(*b) {
            Ok(Taken::Goes(next)) => after = next,
            _ => return None,
        }
    }
    Some(after)
}

// What an item that an LF ends asks for, and the script after it.
fn asks(script: Script) -> Option<(Line, Script)> {
    match script.take(b'\n') {
        Ok(Taken::Asks(asked, after)) => Some((asked, after)),
        _ => None,
    }
}

#[test]
fn line_with_one_more_byte(rt: HostRuntime) {
    let mut line = Reading::new();
    for b in b"open 25" {
        line = line.with(*b);
    }
    assert!(rt; matches!(line.with(b'6').says(), Some(Line::Open(256))));
    assert!(rt; line.with(b'x').says().is_none());
    assert!(rt; matches!(line.says(), Some(Line::Open(25))));
}

#[test]
fn items_one_after_the_other(rt: HostRuntime) -> Result<(), Fail> {
    let list = goes(Script::new(), b"list").ok_or("list")?;
    let (asked, script) = asks(list).ok_or("the end of list")?;
    assert!(rt; matches!(asked, Line::List));
    assert_eq!(rt; script.line, 2);
    let text = goes(script, b"open 2\nab").ok_or("open 2")?;
    let (asked, script) = asks(text).ok_or("the end of the text")?;
    assert!(rt; matches!(asked, Line::Open(2)));
    assert_eq!(rt; script.line, 4);
    Ok(())
}

#[test]
fn wrong_byte(rt: HostRuntime) -> Result<(), Fail> {
    let line = goes(Script::new(), b"lisp").ok_or("lisp")?;
    assert!(rt; matches!(line.take(b'\n'), Err(Broken { from: 1 })));
    let list = goes(Script::new(), b"list").ok_or("list")?;
    let (_, script) = asks(list).ok_or("the end of list")?;
    let text = goes(script, b"open 2\na\n").ok_or("open 2")?;
    assert_eq!(rt; text.line, 4);
    assert!(rt; matches!(text.take(b'c'), Err(Broken { from: 2 })));
    Ok(())
}
