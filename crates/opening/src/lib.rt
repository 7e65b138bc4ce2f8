#![tactic(auto)]

// Opens a text: asks questions 2 to 10 in order and makes the tables of its model.
mod count;

ghost use Rattle.token.specs.Contents.{lows_in, highs_in};
ghost use Rattle.std.specs.Prelude.{◌≡◌, List, ℕ, ◌≤◌, ◌<◌, length};
ghost use Rattle.token.specs.declared.Content.{Content};
ghost use Rattle.token.specs.Questions.{bytes_judged, question_number};
ghost use Rattle.grammar.specs.Syntax;
ghost use Rattle.tree.specs.Node.{kind_of, token_of, counted};
ghost use Rattle.tree.specs.Table;
ghost use Rattle.model.specs.Sites.{system};
ghost use Rattle.model.specs.Opening.{byte_place, system_token};
ghost use Rattle.names.specs.Judged.{no_of};
ghost use Rattle.opening.specs.Trees.{Room, Placed, Fitted, TreeRead};
ghost use Rattle.opening.specs.Marked.{Marked, TreeMarked, SoundMarked, ModelMarked};
ghost use Rattle.opening.specs.Sound.{NamesJudged, SoundHeld, SoundRead};
ghost use Rattle.opening.specs.Models.{SumRoom, ModelHeld, ModelRead, Opens};
ghost use Rattle.opening.specs.System.{first_item, before_name, item_token};

use settle::Model;
use syntax::question;
use syntax::question::Unfit;
use tables::Tables;
use token::{Content, Question, Refusal};
use tree::NodeKind;

#[derive(Clone, Copy)]
pub struct Limits;

impl Limits {
    // processes at the start
    pub const PROCESSES: usize = model::Limits::PROCESSES;
}

// The most tokens of a text, and nodes of its tree.
pub const TOKENS: usize = question::Limits::TOKENS;

// The kind and the place of each token of a text, and their contents, which may go on past the last.
#[derive(Clone, Copy)]
pub struct Words<'a> {
    pub kinds: &'a [u8],
    pub places: &'a [u16],
    pub contents: &'a [Content],
}

// The tables that a text is read into, with room for every text: the kind, place, size and content of each token; the nodes of its tree; for each sum the root of its branches and its scope;
// and its channel names. The functions below are lent them one by one, as callers know them, and so are the private ones: a struct of the lent slices would be made by four callers, each of
// seven contracts would promise that its references stay, and a body would take them into variables.
#[derive(Drop)]
pub struct Space {
    pub kinds: [u8; token::Limits::TEXT],
    pub places: [u16; token::Limits::TEXT],
    pub sizes: [u16; token::Limits::TEXT],
    pub contents: [Content; TOKENS],
    pub nodes: [u64; TOKENS],
    pub roots: [u16; TOKENS],
    pub scopes: [u16; TOKENS],
    pub names: [u64; TOKENS],
}

impl Space {
    pub const EMPTY: Space = Space {
        kinds: [0; token::Limits::TEXT],
        places: [0; token::Limits::TEXT],
        sizes: [0; token::Limits::TEXT],
        contents: [Content { low: 0, high: 0 }; TOKENS],
        nodes: [0; TOKENS],
        roots: [0; TOKENS],
        scopes: [0; TOKENS],
        names: [0; TOKENS],
    };

    // Questions 2 to 9 of a text, and its model in these tables.
    pub fn read_model(&mut self, text: &[u8]) -> Result<SoundModel, Refusal>
        ensures model_read { ModelRead text.now self.new.nodes self.new.roots self.new.scopes result }
        ensures model_marked { ModelMarked text.now self.old.places self.old.sizes self.new.places self.new.sizes result }
    {
        read_model(
            text,
            &mut self.kinds,
            &mut self.places,
            &mut self.sizes,
            &mut self.contents,
            &mut self.nodes,
            &mut self.roots,
            &mut self.scopes,
            &mut self.names,
        )
    }

    // The tables of a model that was found in these.
    pub fn tables(&self, found: Model) -> Tables<'_>
        ensures { (result.nodes.now ≡ self.now.nodes) × (result.roots.now ≡ self.now.roots) × (result.scopes.now ≡ self.now.scopes) × (result.root ≡ found.lists.root) × (result.variables ≡ found.lists.variables) }
    {
        Tables {
            nodes: &self.nodes,
            roots: &self.roots,
            scopes: &self.scopes,
            root: found.lists.root,
            variables: found.lists.variables,
        }
    }
}

// The tree of a text that questions 2 to 6 let through: its root, and how many tokens the text has.
#[derive(Clone, Copy)]
pub struct SyntaxTree {
    pub root: usize,
    pub tokens: usize,
}

// The tree of a text that questions 2 to 9 let through, and where the system line begins.
#[derive(Clone, Copy)]
pub struct SoundTree {
    pub tree: SyntaxTree,
    pub place: usize,
}

// The model of such a text, and where the system line begins. What is promised of a model names its three tables, not the Space: judge_start is lent the nodes alone,
// and answers for any roots and scopes beside them.
#[derive(Clone, Copy)]
pub struct SoundModel {
    pub model: Model,
    pub place: usize,
}

// The model of a text that all questions let through, and how many processes it starts with.
#[derive(Clone, Copy)]
pub struct Accepted {
    pub model: Model,
    pub processes: usize,
}

// The byte at which token k stands, or the text's end past the last.
pub fn byte_place(text: &[u8], places: &[u16], k: usize) -> usize
    requires { Placed text.now places.now }
    ensures { result ≡ byte_place text.now k }
{
    match places.get(k) {
        Some(place) => usize::from(*place),
        None => text.len(),
    }
}

// Questions 5 and 6 of a text that has passed those before.
fn read_tokens(
    text: &[u8],
    kinds: &mut [u8],
    places: &mut [u16],
    sizes: &mut [u16],
    contents: &mut [Content],
    nodes: &mut [u64],
) -> Result<SyntaxTree, Refusal>
    requires passed { Ok tt ≡ bytes_judged text.now }
    requires room { Room kinds.old places.old sizes.old contents.old nodes.old }
    ensures tree_read { TreeRead text.now kinds.new places.new contents.new nodes.new result }
    ensures marked { Marked text.now places.old sizes.old places.new sizes.new }
{
    let tokens = token::fill(text, kinds, places, sizes);
    let asked = question::judge_text(&kinds[..tokens], nodes);
    match asked {
        Err(Unfit::Misfit(k)) => Err(Refusal {
            question: Question::Grammar,
            place: byte_place(text, &places[..tokens], k),
        }),
        Err(Unfit::Crowded(k)) => Err(Refusal {
            question: Question::Tokens,
            place: byte_place(text, &places[..tokens], k),
        }),
        Ok(root) => {
            token::contents(text, kinds, places, sizes, tokens, contents);
            Ok(SyntaxTree { root, tokens })
        }
    }
}

// Questions 2 to 6: the text's tree, in these nodes.
pub fn read_tree(
    text: &[u8],
    kinds: &mut [u8],
    places: &mut [u16],
    sizes: &mut [u16],
    contents: &mut [Content],
    nodes: &mut [u64],
) -> Result<SyntaxTree, Refusal>
    requires { Room kinds.old places.old sizes.old contents.old nodes.old }
    ensures tree_read { TreeRead text.now kinds.new places.new contents.new nodes.new result }
    ensures tree_marked { TreeMarked text.now places.old sizes.old places.new sizes.new result }
{
    token::judge_bytes(text)?;
    read_tokens(text, kinds, places, sizes, contents, nodes)
}

// The node of the first item of the system line at k.
fn first_item(nodes: &[u64], k: usize) -> usize
    requires { k < length nodes.now }
    ensures { result ≡ first_item nodes.now k }
{
    let line = nodes[k];
    if tree::kind_of(line) == NodeKind::SYSTEM {
        return tree::left_of(line);
    }
    k
}

// The first token of an item of the system line: its name, or its count.
fn item_token(item: u64) -> usize
    requires { counted ≤ kind_of item → before_name ≤ token_of item }
    ensures { result ≡ item_token item }
{
    let name = tree::token_of(item);
    if tree::kind_of(item) < NodeKind::COUNTED {
        return name;
    }
    name - settle::COUNT_BEFORE
}

// The first token of the system line of the model at this root.
fn system_token(nodes: &[u64], root: usize) -> usize
    requires { (m : Syntax.Model) × (lo : ℕ) × Table.Model nodes.now m lo root }
    ensures { (m : Syntax.Model) (lo : ℕ) → Table.Model nodes.now m lo root → result ≡ system_token (system m) }
{
    let lists = names::lists_of(nodes, root);
    let first = first_item(nodes, lists.line());
    item_token(nodes[first])
}

// Questions 7 to 9 of a text that fits: where the system line begins.
pub fn judge_tree(text: &[u8], words: Words, nodes: &[u64], root: usize) -> Result<usize, Refusal>
    requires { (s : Syntax.Model) × Fitted text.now s words.kinds.now words.places.now words.contents.now nodes.now root }
    ensures { (s : Syntax.Model) → Fitted text.now s words.entry.kinds.now words.entry.places.now words.entry.contents.now nodes.now root → NamesJudged text.now s result }
{
    if let Err(fault) = names::judge_names(words.kinds, words.contents, nodes, root) {
        return Err(Refusal {
            question: fault.question.into(),
            place: byte_place(text, words.places, fault.token),
        });
    }
    let first = system_token(nodes, root);
    Ok(byte_place(text, words.places, first))
}

// Questions 2 to 9.
pub fn read_sound(
    text: &[u8],
    kinds: &mut [u8],
    places: &mut [u16],
    sizes: &mut [u16],
    contents: &mut [Content],
    nodes: &mut [u64],
) -> Result<SoundTree, Refusal>
    requires { Room kinds.old places.old sizes.old contents.old nodes.old }
    ensures sound_read { SoundRead text.now kinds.new places.new contents.new nodes.new result }
    ensures sound_marked { SoundMarked text.now places.old sizes.old places.new sizes.new result }
{
    let tree = read_tree(text, kinds, places, sizes, contents, nodes)?;
    let words = Words {
        kinds: &kinds[..tree.tokens],
        places: &places[..tree.tokens],
        contents,
    };
    let place = judge_tree(text, words, nodes, tree.root)?;
    Ok(SoundTree { tree, place })
}

// The model of a text that questions 2 to 9 let through, in the tables of its tree.
pub fn settle_sound(
    contents: &[Content],
    nodes: &mut [u64],
    roots: &mut [u16],
    scopes: &mut [u16],
    names: &mut [u64],
    sound: SoundTree,
) -> SoundModel
    requires sound { (text : List ℕ) × (s : Syntax.Model) × (kinds : List ℕ) × (places : List ℕ) × SoundHeld text s kinds places contents.now nodes.old sound }
    requires sum_room { SumRoom roots.old scopes.old names.old }
    ensures { (text : List ℕ) (s : Syntax.Model) (kinds places : List ℕ) → SoundHeld text s kinds places contents.now nodes.old sound → ModelHeld text nodes.new roots.new scopes.new result.model result.place }
{
    SoundModel {
        model: settle::settle(contents, nodes, roots, scopes, names, sound.tree.root),
        place: sound.place,
    }
}

// Questions 2 to 9, and the model.
pub fn read_model(
    text: &[u8],
    kinds: &mut [u8],
    places: &mut [u16],
    sizes: &mut [u16],
    contents: &mut [Content],
    nodes: &mut [u64],
    roots: &mut [u16],
    scopes: &mut [u16],
    names: &mut [u64],
) -> Result<SoundModel, Refusal>
    requires room { Room kinds.old places.old sizes.old contents.old nodes.old }
    requires sum_room { SumRoom roots.old scopes.old names.old }
    ensures model_read { ModelRead text.now nodes.new roots.new scopes.new result }
    ensures model_marked { ModelMarked text.now places.old sizes.old places.new sizes.new result }
{
    let sound = read_sound(text, kinds, places, sizes, contents, nodes)?;
    Ok(settle_sound(contents, nodes, roots, scopes, names, sound))
}

// Question 10 of a model in these nodes.
pub fn judge_start(nodes: &[u64], found: SoundModel) -> Result<Accepted, Refusal>
    requires { (text : List ℕ) × (roots : List ℕ) × (scopes : List ℕ) × ModelHeld text nodes.now roots scopes found.model found.place }
    ensures { (text roots scopes : List ℕ) → ModelHeld text nodes.now roots scopes found.model found.place → Opens text nodes.now roots scopes result }
{
    let model = found.model;
    let processes = count::start_count(nodes, model.lists.first_definition(), model.lists.line());
    if Limits::PROCESSES < processes {
        return Err(Refusal {
            question: Question::Processes,
            place: found.place,
        });
    }
    Ok(Accepted { model, processes })
}

// All questions, and the model.
pub fn open_text(
    text: &[u8],
    kinds: &mut [u8],
    places: &mut [u16],
    sizes: &mut [u16],
    contents: &mut [Content],
    nodes: &mut [u64],
    roots: &mut [u16],
    scopes: &mut [u16],
    names: &mut [u64],
) -> Result<Accepted, Refusal>
    requires room { Room kinds.old places.old sizes.old contents.old nodes.old }
    requires sum_room { SumRoom roots.old scopes.old names.old }
    ensures { Opens text.now nodes.new roots.new scopes.new result }
{
    let found = read_model(
        text, kinds, places, sizes, contents, nodes, roots, scopes, names,
    )?;
    judge_start(nodes, found)
}
