// A row of the table: what an open branch offers. The head has the offer's small numbers, its rate, and the branch with its place.
#[derive(Clone, Copy)]
pub struct Row {
    pub head: u64,
    pub channel: i64,
    pub first: i64,
    pub first_end: i64,
    pub second: i64,
    pub second_end: i64,
    pub channel2: i64,
    pub channel3: i64,
}

impl Row {
    // What stands in a table before its rows are filled: a constant, where `Default` would be a call for each table that is made.
    pub const EMPTY: Row = Row {
        head: 0,
        channel: 0,
        first: 0,
        first_end: 0,
        second: 0,
        second_end: 0,
        channel2: 0,
        channel3: 0,
    };
}
