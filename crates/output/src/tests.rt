// The bytes of lines, rows and entries with any text before each and any letter between.
use crate::{Style, put_entries, put_line, put_rows};
use std::test::Fail;

#[test]
fn line_of_what_can_be_displayed(rt: HostRuntime) -> Result<(), Fail> {
    let mut out = Vec::new(rt.alloc());
    put_line(&mut out, &["ab", "", "c"], '·')?;
    put_line(&mut out, &[true, false], ' ')?;
    put_line(&mut out, &[-7i64], ' ')?;
    put_line(&mut out, &[0u64; 0], ' ')?;
    assert_eq!(rt;
        out.as_slice(),
        b"ab\xc2\xb7\xc2\xb7c\ntrue false\n-7\n".as_slice()
    );
    Ok(())
}

#[test]
fn rows_as_far_as_they_are_there(rt: HostRuntime) -> Result<(), Fail> {
    let style = Style {
        begin: "row ",
        gap: '·',
    };
    let mut out = Vec::new(rt.alloc());
    put_rows(&mut out, &[1, 2, 3, 4, 5], 2, 5, style)?;
    put_rows(&mut out, &[6, 7, 8, 9], 2, 1, style)?;
    put_rows(&mut out, &[10, 11], 0, 2, style)?;
    assert_eq!(rt;
        out.as_slice(),
        b"row 1\xc2\xb72\nrow 3\xc2\xb74\nrow 6\xc2\xb77\nrow 10\nrow 11\n".as_slice()
    );
    Ok(())
}

#[test]
fn entries_as_far_as_they_are_there(rt: HostRuntime) -> Result<(), Fail> {
    let listing: [u64; 16] = [1, 2, 3, 4, 5, 6, 7, 8, 9, 10, 11, 12, 13, 14, 15, 16];
    let style = Style {
        begin: "entry: ",
        gap: '·',
    };
    let mut out = Vec::new(rt.alloc());
    put_entries(&mut out, &listing, 3, style)?;
    assert_eq!(rt;
        out.as_slice(),
        "entry: 1·2·3·4·5·6·7\nentry: 8·9·10·11·12·13·14\n".as_bytes()
    );
    Ok(())
}
