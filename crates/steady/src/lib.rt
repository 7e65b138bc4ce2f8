#![tactic(auto)]

// The steady profile: question 29 of a text, and opening a text under it.
ghost use Rattle.std.specs.Prelude.{◌≡◌, List, ℕ, ◌≤◌};
ghost use Rattle.grammar.specs.Syntax;
ghost use Rattle.model.specs.Lists.{least};
ghost use Rattle.model.specs.Sites.{definitions};
ghost use Rattle.profile.specs.Unsteady.{several_sums, unsteady};
ghost use Rattle.names.specs.declared.Question.TheVariants.{Given};
ghost use Rattle.names.specs.Settings.{WorldIn};
ghost use Rattle.names.specs.Placed.{IsName};
ghost use Rattle.opening.specs.Trees.{Room, Fitted};
ghost use Rattle.opening.specs.Sound.{Sound};
ghost use Rattle.opening.specs.Models.{SumRoom};
ghost use Rattle.steady.specs.Scan.{offender_at};
ghost use Rattle.steady.specs.Opens.{offender_under, OpensUnder};

use names::Parsed;
use opening::Accepted;
use token::{Content, Question, Refusal};
use tree::NodeKind;

// What a text is opened under: questions 2 to 10, or 29 too.
#[derive(Clone, Copy)]
pub enum Profile {
    Plain,
    Steady,
}

// Whether the definition with the name k has more than one sum.
fn has_several(parsed: Parsed, k: usize) -> bool
    requires { (h : WorldIn Given parsed) × IsName h.kinds k }
    ensures { (h : WorldIn Given parsed.entry) → IsName h.kinds k → result ≡ several_sums h.word (definitions h.model) k }
{
    let Some(d) = parsed.definition_node(k) else {
        return false;
    };
    tree::kind_of(parsed.nodes[d - 1]) == NodeKind::BESIDE
}

// Question 29 of the node i. The root of a group's items is the node before the group's own.
fn node_fault(parsed: Parsed, i: usize) -> Option<usize>
    requires { WorldIn Given parsed × (i ≤ parsed.lists.root) }
    ensures { (h : WorldIn Given parsed.entry) → result ≡ offender_at (several_sums h.word (definitions h.model)) parsed.entry.nodes.now i }
{
    let node = parsed.nodes[i];
    let kind = tree::kind_of(node);
    let k = tree::token_of(node);
    match kind {
        NodeKind::GROUP => (tree::kind_of(parsed.nodes[i - 1]) == NodeKind::ITEM).then_some(k),
        NodeKind::CALL | NodeKind::CALL_WITH => has_several(parsed, k).then_some(k),
        _ => None,
    }
}

// Question 29 of a text without faults, in the reader's nodes: the first token that offends.
pub fn first_unsteady(parsed: Parsed) -> Option<usize>
    requires { WorldIn Given parsed }
    ensures { (h : WorldIn Given parsed.entry) → result ≡ least (unsteady h.word h.model) }
{
    (0..parsed.lists.root + 1)
        .filter_map(|i| node_fault(parsed, i))
        .min()
}

// What the profile asks of a text that questions 2 to 9 let through, in the tables of its tree: the first token that offends.
fn offender(profile: Profile, contents: &[Content], nodes: &[u64], root: usize) -> Option<usize>
    requires { (text : List ℕ) × (s : Syntax.Model) × (kinds : List ℕ) × (places : List ℕ) × Fitted text s kinds places contents.now nodes.now root × Sound text s }
    ensures { (text : List ℕ) (s : Syntax.Model) (kinds places : List ℕ) → Fitted text s kinds places contents.now nodes.now root → Sound text s → result ≡ offender_under profile text s }
{
    match profile {
        Profile::Plain => None,
        Profile::Steady => {
            let lists = names::lists_of(nodes, root);
            first_unsteady(Parsed {
                contents,
                nodes,
                lists,
            })
        }
    }
}

// All questions of this profile, 29 after 10, and the model. The tables are lent one by one, as opening says of its own.
pub fn open_under(
    profile: Profile,
    text: &[u8],
    kinds: &mut [u8],
    places: &mut [u16],
    sizes: &mut [u16],
    contents: &mut [Content],
    nodes: &mut [u64],
    roots: &mut [u16],
    scopes: &mut [u16],
    names: &mut [u64],
) -> Result<Accepted, Refusal>
    requires room { Room kinds.old places.old sizes.old contents.old nodes.old }
    requires sum_room { SumRoom roots.old scopes.old names.old }
    ensures { OpensUnder profile text.now nodes.new roots.new scopes.new result }
{
    let sound = opening::read_sound(text, kinds, places, sizes, contents, nodes)?;
    let tree = sound.tree;
    let found = offender(profile, contents, nodes, tree.root);
    let model = opening::settle_sound(contents, nodes, roots, scopes, names, sound);
    let opened = opening::judge_start(nodes, model)?;
    match found {
        Some(k) => Err(Refusal {
            question: Question::Steady,
            place: opening::byte_place(text, &places[..tree.tokens], k),
        }),
        None => Ok(opened),
    }
}
