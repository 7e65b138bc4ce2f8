#![tactic(auto)]

// Runs the arithmetic of values at zero, at both ends of the range and on the paper's specimens.
use std::io;
use value::Range;

// A line for each: its name and the value's digits, or `none`.
fn lines(rt: &impl Print, values: &[(&str, Option<i64>)]) -> io::Result<()> {
    for &(name, value) in values {
        match value {
            Some(z) => println!(rt; "{name},{z}")?,
            None => println!(rt; "{name},none")?,
        }
    }
    Ok(())
}

fn quotients(rt: &impl Print) -> io::Result<()> {
    let values = [
        ("-7/2", value::div_value(-7, 2)),
        ("7/-2", value::div_value(7, -2)),
        ("-7/-2", value::div_value(-7, -2)),
        ("7/2", value::div_value(7, 2)),
        ("0/-5", value::div_value(0, -5)),
        ("5/0", value::div_value(5, 0)),
        ("-8/2", value::div_value(-8, 2)),
        ("8/-2", value::div_value(8, -2)),
        ("-8/-2", value::div_value(-8, -2)),
        ("8/2", value::div_value(8, 2)),
        ("-7/1", value::div_value(-7, 1)),
        ("7/-1", value::div_value(7, -1)),
    ];
    lines(rt, &values)
}

fn quotient_ends(rt: &impl Print) -> io::Result<()> {
    let (least, greatest) = (Range::LEAST, Range::GREATEST);
    let values = [
        ("-1/greatest", value::div_value(-1, greatest)),
        ("1/least", value::div_value(1, least)),
        ("1/greatest", value::div_value(1, greatest)),
        ("-1/least", value::div_value(-1, least)),
        ("greatest/-2", value::div_value(greatest, -2)),
        ("least/-2", value::div_value(least, -2)),
        ("-2147483648/-1", value::div_value(-2147483648, -1)),
        ("least/-1", value::div_value(least, -1)),
        ("least/1", value::div_value(least, 1)),
        ("greatest/-1", value::div_value(greatest, -1)),
        ("least/greatest", value::div_value(least, greatest)),
        ("least/0", value::div_value(least, 0)),
    ];
    lines(rt, &values)
}

fn sums(rt: &impl Print) -> io::Result<()> {
    let (least, greatest) = (Range::LEAST, Range::GREATEST);
    let values = [
        ("greatest+1", value::add_value(greatest, 1)),
        ("1099511627774+1", value::add_value(1099511627774, 1)),
        ("least+-1", value::add_value(least, -1)),
        ("greatest+least", value::add_value(greatest, least)),
        ("least+least", value::add_value(least, least)),
        ("least-1", value::sub_value(least, 1)),
        ("-1099511627774-1", value::sub_value(-1099511627774, 1)),
        ("greatest--1", value::sub_value(greatest, -1)),
        ("least-least", value::sub_value(least, least)),
        ("0-least", value::sub_value(0, least)),
        ("greatest-least", value::sub_value(greatest, least)),
    ];
    lines(rt, &values)
}

fn products(rt: &impl Print) -> io::Result<()> {
    let values = [
        ("1048575*1048577", value::mul_value(1048575, 1048577)),
        ("-1048575*1048577", value::mul_value(-1048575, 1048577)),
        ("1048575*-1048577", value::mul_value(1048575, -1048577)),
        ("-1048575*-1048577", value::mul_value(-1048575, -1048577)),
        ("4294967296*255", value::mul_value(4294967296, 255)),
        ("-549755813887*2", value::mul_value(-549755813887, 2)),
        ("1048576*1048576", value::mul_value(1048576, 1048576)),
        ("-1048576*1048576", value::mul_value(-1048576, 1048576)),
        ("1048576*-1048576", value::mul_value(1048576, -1048576)),
        ("-1048576*-1048576", value::mul_value(-1048576, -1048576)),
        ("4294967296*256", value::mul_value(4294967296, 256)),
        ("-549755813888*2", value::mul_value(-549755813888, 2)),
    ];
    lines(rt, &values)
}

fn product_ends(rt: &impl Print) -> io::Result<()> {
    let (least, greatest) = (Range::LEAST, Range::GREATEST);
    let values = [
        ("least*-1", value::mul_value(least, -1)),
        ("least*0", value::mul_value(least, 0)),
        ("0*greatest", value::mul_value(0, greatest)),
        ("1*least", value::mul_value(1, least)),
        ("greatest*greatest", value::mul_value(greatest, greatest)),
        ("least*greatest", value::mul_value(least, greatest)),
    ];
    lines(rt, &values)
}

fn sizes(rt: &impl Print) -> io::Result<()> {
    let (least, greatest) = (Range::LEAST, Range::GREATEST);
    let values = [
        ("-least", value::neg_value(least)),
        ("-greatest", value::neg_value(greatest)),
        ("abs(least)", value::abs_value(least)),
        ("abs(greatest)", value::abs_value(greatest)),
        ("abs(-7)", value::abs_value(-7)),
        ("max(-7,2)", Some(value::max_of(-7, 2))),
        ("max(least,greatest)", Some(value::max_of(least, greatest))),
        ("min(least,greatest)", Some(value::min_of(least, greatest))),
    ];
    lines(rt, &values)
}

fn main(rt: HostRuntime) -> io::Result<()> {
    quotients(&rt)?;
    quotient_ends(&rt)?;
    sums(&rt)?;
    products(&rt)?;
    product_ends(&rt)?;
    sizes(&rt)
}
