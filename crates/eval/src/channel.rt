// What a channel of one to three items comes to, and its numbers in a pair's row.
ghost use Rattle.std.specs.Prelude.{◌≡◌, ◌++◌, ◌≤◌, length, drop};
ghost use Rattle.std.proofs.Math.Option.{Option, none, some};
ghost use Rattle.value.specs.Items.{one_item, two_items, three_items};
ghost use Rattle.model.specs.Resolved as Resolved;
ghost use Rattle.model.specs.Good.{GoodItem, GoodName};
ghost use Rattle.rules.specs.Offers as offers;
ghost use Rattle.tables.specs.Settled as Settled;
ghost use Rattle.machine.specs.Evaluate.{given};
ghost use Rattle.machine.specs.State.{channel_width};
ghost use Rattle.eval.specs.Held.{Held, Worth};
ghost use Rattle.eval.specs.Channels.{numbers_of, kind_of, value_of, item_of, channel_of, item_answer, channel_answer};

use crate::Context;
use tree::NodeKind;

// What an item comes to: a number, or a channel name by its number.
#[derive(Clone, Copy)]
pub enum Item {
    Number(i64),
    Name(i64),
}

impl Item {
    // Its kind in a pair's row.
    fn kind(self) -> u8
        ensures { (result ≡ kind_of self) × (result ≤ 1) }
    {
        match self {
            Item::Number(_) => 0,
            Item::Name(_) => 1,
        }
    }

    fn value(self) -> i64
        ensures { result ≡ value_of self }
    {
        match self {
            Item::Number(value) | Item::Name(value) => value,
        }
    }
}

// A channel: its shape and the values of its items, 0 for those that aren't there. A shape is ITEMS times the count of items and the items' kinds, once, twice
// and four times. It is one number, which a row of the table of offers takes in as it is, and its bits are the numbers of a pair's row: an enum of one to three
// items would be packed for the table, and taken apart again for each pair.
#[derive(Clone, Copy, PartialEq)]
pub struct Channel {
    pub shape: u8,
    pub first: i64,
    pub second: i64,
    pub third: i64,
}

impl Channel {
    pub const ITEMS: u8 = 8;

    // Writes it over the first numbers of a pair's row, whose last ones its caller writes.
    pub fn put(self, row: &mut [i64])
        requires { channel_width ≤ length row.old }
        ensures { row.new ≡ numbers_of self.shape self.first self.second self.third ++ drop channel_width row.old }
    {
        let numbers = [
            (self.shape / Channel::ITEMS) as i64,
            (self.shape % 2) as i64,
            self.first,
            (self.shape / 2 % 2) as i64,
            self.second,
            (self.shape / 4 % 2) as i64,
            self.third,
        ];
        row[..numbers.len()].copy_from_slice(&numbers);
    }
}

// What the item at k comes to.
fn item_of(context: &Context, k: usize) -> Option<Item>
    requires { (m : Resolved.Model) × Held (Settled.Item context.now.nodes.now) (GoodItem m (length context.now.locals.now)) k }
    ensures { Worth (Settled.Item context.now.nodes.now) (item_answer context.now.locals.now) k result }
{
    let cell = crate::cell_at(context.nodes, k);
    if tree::kind_of(cell) == NodeKind::CHANNEL {
        let n = tree::token_of(cell) as i64;
        return Some(Item::Name(n));
    }
    let value = crate::eval_node_lent(context, k)?;
    Some(Item::Number(value))
}

// What the channel at k comes to.
pub fn channel_of_lent(context: &Context, k: usize) -> Option<Channel>
    requires { (m : Resolved.Model) × Held (Settled.Channel context.now.nodes.now) (GoodName m (length context.now.locals.now)) k }
    ensures { Worth (Settled.Channel context.now.nodes.now) (channel_answer context.now.locals.now) k result }
{
    let cell = crate::cell_at(context.nodes, k);
    let kind = tree::kind_of(cell);
    if kind < NodeKind::TWO_ITEMS {
        let a = item_of(context, k)?;
        return Some(Channel {
            shape: Channel::ITEMS + a.kind(),
            first: a.value(),
            second: 0,
            third: 0,
        });
    }
    let a = item_of(context, tree::left_of(cell))?;
    if kind == NodeKind::TWO_ITEMS {
        let b = item_of(context, k - 1)?;
        return Some(Channel {
            shape: Channel::ITEMS * 2 + a.kind() + b.kind() * 2,
            first: a.value(),
            second: b.value(),
            third: 0,
        });
    }
    let b = item_of(context, tree::third_of(cell))?;
    let c = item_of(context, k - 1)?;
    Some(Channel {
        shape: Channel::ITEMS * 3 + a.kind() + b.kind() * 2 + c.kind() * 4,
        first: a.value(),
        second: b.value(),
        third: c.value(),
    })
}

// The same of a context by value.
pub fn channel_of(context: Context, k: usize) -> Option<Channel>
    requires { (m : Resolved.Model) × Held (Settled.Channel context.nodes.now) (GoodName m (length context.locals.now)) k }
    ensures { Worth (Settled.Channel context.entry.nodes.now) (channel_answer context.entry.locals.now) k result }
{
    channel_of_lent(&context, k)
}
