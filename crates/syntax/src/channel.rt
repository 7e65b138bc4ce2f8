// Reads channels of one to three items.
ghost use Rattle.std.specs.Prelude.{[], ◌∷◌, ◌+◌, ◌≤◌};
ghost use Rattle.grammar.specs.Grammar.{flat_channel};
ghost use Rattle.grammar.specs.Machine.{SecondItem, ThirdItem, a_channel};
ghost use Rattle.grammar.specs.Follows.{Follows};
ghost use Rattle.grammar.specs.Syntax.{channel_at};
ghost use Rattle.tree.specs.Table;
ghost use Rattle.tree.specs.Reading.{place, Ready, Parsed, Extended};
ghost use Rattle.syntax.specs.Channels.{flat_more, more_at, Items};

use crate::expression;
use tree::{NodeKind, Read};

// A channel.
pub fn channel(toks: &[u8], at: usize, nodes: &mut [u64], used: usize) -> Read
    requires { Ready toks.now at used }
    ensures follows { Follows toks.now at (a_channel) (place result) }
    ensures parsed { Parsed flat_channel (λ t c. Table.Channel t (channel_at c at)) toks.now nodes.old nodes.new at used result }
{
    let (n, left) = expression::expr(toks, at, nodes, used)?;
    seconds(toks, n, nodes, left)
}

// What follows a channel's first item, which is on the left: perhaps one or two items more.
pub fn seconds(toks: &[u8], at: usize, nodes: &mut [u64], left: usize) -> Read
    requires { Ready toks.now at (left + 1) }
    ensures follows { Follows toks.now at (SecondItem ∷ []) (place result) }
    ensures extended { Extended flat_more (λ e m. more_at e m at) Table.Expr Table.Channel toks.now nodes.old nodes.new at left result }
{
    if token::peek(toks, at) != b',' {
        return Ok((at, left));
    }
    let (n, mid) = expression::expr(toks, at + 1, nodes, left + 1)?;
    thirds(toks, n, nodes, left, mid)
}

// What follows a channel's first two items, which are at `left` and `mid`: perhaps one more. Unlike `seconds` it always makes a node.
pub fn thirds(toks: &[u8], at: usize, nodes: &mut [u64], left: usize, mid: usize) -> Read
    requires ready { Ready toks.now at (mid + 1) }
    requires left_le_mid { left ≤ mid }
    ensures follows { Follows toks.now at (ThirdItem ∷ []) (place result) }
    ensures items { Items toks.now nodes.old nodes.new at left mid result }
{
    if token::peek(toks, at) != b',' {
        let root = mid + 1;
        tree::pair(nodes, root, NodeKind::TWO_ITEMS, left);
        return Ok((at, root));
    }
    let (n, r) = expression::expr(toks, at + 1, nodes, mid + 1)?;
    let root = r + 1;
    tree::node(nodes, root, NodeKind::THREE_ITEMS, 0, left, mid);
    Ok((n, root))
}
