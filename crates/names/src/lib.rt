#![tactic(auto)]

// Questions 7, 8 and 9 of a text that fits.
pub mod list;
mod scope;
pub mod walk;

ghost use Rattle.token.specs.Contents.{lows_in, highs_in};
ghost use Rattle.std.specs.Prelude.{◌≡◌, List, [], ◌∷◌, true, false, ◌||◌, ℕ, ◌+◌, ◌-◌, ◌*◌, ◌≤◌, ◌<◌, min, eqb, length, get_or, take, drop};
ghost use Rattle.word.specs.Number.{worth, cap};
ghost use Rattle.token.specs.Token.{tokens};
ghost use Rattle.grammar.specs.Syntax;
ghost use Rattle.tree.specs.Node.{field, left_of, number_kind};
ghost use Rattle.tree.specs.Table;
ghost use Rattle.model.specs.Lists.{least, when, each, any, every_other};
ghost use Rattle.model.specs.Sites.{bound, branch, call, Variable, Definition, variables, definitions};
ghost use Rattle.model.specs.Words.{same};
ghost use Rattle.model.specs.Limits.{local_limit, words_beyond, site_beyond};
ghost use Rattle.model.specs.Fresh.{repeated};
ghost use Rattle.model.specs.Given.{place_in, is_callable};
ghost use Rattle.names.specs.Tables.{Tabled, Read};
ghost use Rattle.names.specs.Judged.{among_all, fault_of, answer_of, judged_names};
ghost use Rattle.names.specs.Faults.{earlier_of, left_out, site_faults};
ghost use Rattle.names.specs.Lists.{packed_in, found_of, names_down, InScope, ReachIn, run, Gathered, NodeNamed};
ghost use Rattle.names.specs.Settings.{Extended, WorldIn, SettingIn, WorldOf, SettingOf, BindingOf, faults_at, known_in};
ghost use Rattle.names.specs.Leaves.{used, leaf_sites, site_at, between};
ghost use Rattle.names.specs.Placed.{IsName, Named, sort_of, wholes, names};
ghost use Rattle.names.specs.declared.Question.TheVariants.{Limits, Fresh, Given};

use list::NameList;
pub use scope::Scope;
use token::{Content, Kind};
use tree::NodeKind;

// Which question is asked: 7, 8 or 9.
// An enum, no trait: eight functions of the walk match it, and an impl for each question would write out twenty-four methods, ten of them to answer None.
#[derive(Clone, Copy)]
pub enum Question {
    Limits,
    Fresh,
    Given,
}

impl From<Question> for token::Question {
    ghost from_gives = { λ q t. t ≡ among_all q };

    fn from(q: Question) -> token::Question {
        match q {
            Question::Limits => token::Question::Limits,
            Question::Fresh => token::Question::Fresh,
            Question::Given => token::Question::Given,
        }
    }
}

#[derive(Clone, Copy)]
pub struct Limits;

impl Limits {
    // times an item of the system line counts
    pub const COUNT: u64 = 256;

    pub const VARIABLES: usize = 64;

    pub const DEFINITIONS: usize = model::Limits::DEFINITIONS;

    // parameters of a definition
    pub const PARAMETERS: usize = 6;

    // locals in scope together
    pub const LOCALS: usize = model::Limits::LOCALS;

    // branches of a sum
    pub const BRANCHES: usize = model::Limits::BRANCHES;
}

// Where a model's variables and definitions stand: variable j in node root - j, definition j left of node root - variables - j.
#[derive(Clone, Copy)]
pub struct Lists {
    pub root: usize,
    pub variables: usize,
    pub definitions: usize,
}

impl Lists {
    // The node of the first definition.
    pub fn first_definition(self) -> usize
        requires { self.variables ≤ self.root }
        ensures { result ≡ self.root - self.variables }
    {
        self.root - self.variables
    }

    // The root of the system line.
    pub fn line(self) -> usize
        requires { self.variables + self.definitions ≤ self.root }
        ensures { result ≡ self.root - self.variables - self.definitions }
    {
        self.first_definition() - self.definitions
    }
}

// A text that fits: the contents of its tokens, its tree, and where the lists of its model stand.
// What they tell of the text (WorldIn, SettingIn) stands in the contracts, no field: each answer is promised for every text that the tables tell of, and the clauses name it.
#[derive(Clone, Copy)]
pub struct Parsed<'a> {
    pub contents: &'a [Content],
    pub nodes: &'a [u64],
    pub lists: Lists,
}

// Which question a walk asks, of which text, and with which locals in scope.
// The tables stand in it by themselves, not as a Parsed: of a slice in a struct of a lent struct the check doesn't know the size.
#[derive(Clone, Copy)]
pub struct Context<'a> {
    pub question: Question,
    pub kinds: &'a [u8],
    pub contents: &'a [Content],
    pub nodes: &'a [u64],
    pub lists: Lists,
    pub scope: Scope,
}

impl<'a> Context<'a> {
    // The same with these locals in scope.
    pub(crate) fn within(&self, scope: Scope) -> Context<'a>
        ensures { result ≡ record { question = self.entry.now.question; kinds = self.entry.now.kinds; contents = self.entry.now.contents; nodes = self.entry.now.nodes; lists = self.entry.now.lists; scope = scope } }
    {
        Context { scope, ..*self }
    }

    // Its text.
    fn parsed(&self) -> Parsed<'a>
        ensures { result ≡ record { contents = self.entry.now.contents; nodes = self.entry.now.nodes; lists = self.entry.now.lists } }
    {
        Parsed {
            contents: self.contents,
            nodes: self.nodes,
            lists: self.lists,
        }
    }
}

// The earlier of two answers.
pub fn earlier(a: Option<usize>, b: Option<usize>) -> Option<usize>
    ensures { result ≡ earlier_of a b }
{
    a.into_iter().chain(b).min()
}

// A name or a decimal that is beyond its limit has no contents.
fn is_left_out(kind: u8, content: Content) -> bool
    ensures { result ≡ left_out kind content.low content.high }
{
    match kind {
        Kind::NAME => content.low == 0,
        Kind::DECIMAL => content.high == 0,
        _ => false,
    }
}

// Question 7 of the tokens alone: the first name or decimal beyond its limit.
pub fn words_fault(kinds: &[u8], contents: &[Content]) -> Option<usize>
    requires { (text : List ℕ) × Tabled text kinds.now (lows_in contents.now) (highs_in contents.now) (length kinds.now) }
    ensures { (text : List ℕ) → Tabled text kinds.now (lows_in contents.now) (highs_in contents.now) (length kinds.now) → result ≡ least (words_beyond text 0 (tokens text)) }
{
    kinds
        .iter()
        .zip(contents)
        .position(|(&kind, &content)| is_left_out(kind, content))
}

// How many nodes of this kind stand one after the other, from the node `first` down.
pub fn run_of(nodes: &[u64], kind: u8, first: usize) -> usize
    requires { (first < length nodes.now) × (run nodes.now kind first ≤ first) }
    ensures { result ≡ run nodes.now kind first }
{
    nodes[..=first]
        .iter()
        .rev()
        .take_while(|node| tree::kind_of(**node) == kind)
        .count()
}

// The variables and definitions of the model at this root.
pub fn lists_of(nodes: &[u64], root: usize) -> Lists
    requires { (m : Syntax.Model) × (lo : ℕ) × Table.Model nodes.now m lo root }
    ensures { (m : Syntax.Model) (lo : ℕ) → Table.Model nodes.now m lo root → Gathered m root result }
{
    let variables = run_of(nodes, NodeKind::VARIABLE, root);
    let more = run_of(nodes, NodeKind::NEXT, root - variables);
    Lists {
        root,
        variables,
        definitions: more + 1,
    }
}

// Whether two names of at most 16 bytes are the same.
pub fn same_name(contents: &[Content], i: usize, j: usize) -> bool
    requires { (i < length contents.now) × (j < length contents.now) }
    ensures { result ≡ same (packed_in contents.now) i j }
{
    contents[i] == contents[j]
}

// The place in scope of the local with the name k.
pub fn local_named(contents: &[Content], scope: Scope, k: usize) -> Option<usize>
    requires { InScope (lows_in contents.now) (highs_in contents.now) scope k }
    ensures { result ≡ found_of (place_in (packed_in contents.now) k 0 (take scope.count scope.names)) }
{
    scope.names[..scope.count]
        .iter()
        .position(|&name| same_name(contents, k, name as usize))
}

impl<'a> Parsed<'a> {
    // The list of the variables' names.
    pub(crate) fn variables(self) -> NameList<'a>
        requires { ReachIn self self.lists.root self.lists.variables }
        ensures { (result.contents ≡ self.entry.contents) × (result.nodes ≡ self.entry.nodes) × (result.first ≡ self.entry.lists.root) × (result.count ≡ self.entry.lists.variables) }
    {
        NameList {
            contents: self.contents,
            nodes: self.nodes,
            first: self.lists.root,
            count: self.lists.variables,
        }
    }

    // The list of the definitions' names.
    pub(crate) fn definitions(self) -> NameList<'a>
        requires { (self.lists.variables ≤ self.lists.root) × ReachIn self (self.lists.root - self.lists.variables) self.lists.definitions }
        ensures { (result.contents ≡ self.entry.contents) × (result.nodes ≡ self.entry.nodes) × (result.first ≡ self.entry.lists.root - self.entry.lists.variables) × (result.count ≡ self.entry.lists.definitions) }
    {
        NameList {
            contents: self.contents,
            nodes: self.nodes,
            first: self.lists.first_definition(),
            count: self.lists.definitions,
        }
    }

    // The place of the variable with the name k among the variables.
    pub fn variable_named(self, k: usize) -> Option<usize>
        requires reach { ReachIn self self.lists.root self.lists.variables }
        requires k_in_bounds { k < length self.contents.now }
        ensures { result ≡ found_of (place_in (packed_in self.entry.contents.now) k 0 (names_down self.entry.nodes.now self.entry.lists.root self.entry.lists.variables)) }
    {
        self.variables().place_of(k)
    }

    // The place of the definition with the name k among the definitions.
    pub fn definition_named(self, k: usize) -> Option<usize>
        requires below { self.lists.variables ≤ self.lists.root }
        requires reach { ReachIn self (self.lists.root - self.lists.variables) self.lists.definitions }
        requires k_in_bounds { k < length self.contents.now }
        ensures { result ≡ found_of (place_in (packed_in self.entry.contents.now) k 0 (names_down self.entry.nodes.now (self.entry.lists.root - self.entry.lists.variables) self.entry.lists.definitions)) }
    {
        self.definitions().place_of(k)
    }

    // The node of the definition with the name k; the root of its sums is the node before it.
    // settle and opening go to a definition by its number, in nodes of which they know other facts (LookupIn, ItemAt).
    pub fn definition_node(self, k: usize) -> Option<usize>
        requires { (h : WorldIn Given self) × IsName h.kinds k }
        ensures { (h : WorldIn Given self.entry) → IsName h.kinds k → NodeNamed self.entry.nodes.now h.word (definitions h.model) k result }
    {
        let j = self.definition_named(k)?;
        let first = self.lists.first_definition();
        Some(tree::left_of(self.nodes[first - j]))
    }
}

// Whether a variable's number is whole, by the kind of its node.
#[tactic(auto, unfolding(tree::specs::Node::number_kind))]
pub fn is_whole(kind: u8) -> bool
    ensures { result ≡ (eqb kind (number_kind false false) || eqb kind (number_kind true false)) }
{
    matches!(kind, NodeKind::NUMBER | NodeKind::NEGATIVE_NUMBER)
}

// Question 9 of a name that is used as a scale.
fn scale_fault(parsed: &Parsed, scope: Scope, k: usize) -> Option<usize>
    requires { (h : SettingIn Given parsed.now scope) × IsName h.world.kinds k }
    ensures { (h : SettingIn Given parsed.entry.now scope) → IsName h.world.kinds k → result ≡ least (faults_at h (used true k)) }
{
    let given = local_named(parsed.contents, scope, k).is_some()
        || parsed.variable_named(k).is_some();
    (!given).then_some(k)
}

// Question 9 of a name that is used as a value, which has to be whole.
fn value_fault(parsed: &Parsed, scope: Scope, k: usize) -> Option<usize>
    requires { (h : SettingIn Given parsed.now scope) × IsName h.world.kinds k }
    ensures { (h : SettingIn Given parsed.entry.now scope) → IsName h.world.kinds k → result ≡ least (faults_at h (used false k)) }
{
    if local_named(parsed.contents, scope, k).is_some() {
        return None;
    }
    let root = parsed.lists.root;
    let Some(j) = parsed.variable_named(k) else {
        return Some(k);
    };
    let whole = is_whole(tree::kind_of(parsed.nodes[tree::left_of(parsed.nodes[root - j])]));
    (!whole).then_some(k)
}

// Whether the definition with the name k has n parameters.
fn is_callable(parsed: &Parsed, k: usize, n: usize) -> bool
    requires { (h : WorldIn Given parsed.now) × IsName h.kinds k }
    ensures { (h : WorldIn Given parsed.entry.now) → IsName h.kinds k → result ≡ is_callable h.word (definitions h.model) k n }
{
    let Some(d) = parsed.definition_node(k) else {
        return false;
    };
    tree::third_of(parsed.nodes[d]) == n
}

// The faults of a call, or of an item of the system line, with n values.
fn call_fault(context: &Context, k: usize, n: usize) -> Option<usize>
    requires { (h : WorldOf context.now) × IsName h.kinds k }
    ensures { (h : WorldOf context.entry.now) (sc : List ℕ) → IsName h.kinds k → result ≡ least (site_faults context.entry.now.question h.word (variables h.model) (definitions h.model) sc (call k n)) }
{
    match context.question {
        Question::Limits | Question::Fresh => None,
        Question::Given => (!is_callable(&context.parsed(), k, n)).then_some(k),
    }
}

// Question 7 of a node: a whole number that is beyond the range.
fn number_fault(contents: &[Content], kind: u8, k: usize) -> Option<usize>
    requires { sort_of kind ≡ wholes → (k < length contents.now) × (get_or (lows_in contents.now) k 0 ≤ cap) }
    ensures { (w : ℕ → List ℕ) (sc : List ℕ) → (sort_of kind ≡ wholes → get_or (lows_in contents.now) k 0 ≡ min cap (worth 0 (w k))) → result ≡ least (each (site_beyond w sc) (leaf_sites kind k)) }
{
    let value = match kind {
        NodeKind::LITERAL | NodeKind::NUMBER => value::value_of(contents[k].low as i64),
        NodeKind::NEGATIVE | NodeKind::NEGATIVE_NUMBER => value::neg_value(contents[k].low as i64),
        _ => return None,
    };
    value.is_none().then_some(k)
}

// Question 9 of a node: a name that isn't given.
fn used_fault(parsed: &Parsed, scope: Scope, kind: u8, k: usize) -> Option<usize>
    requires { (h : SettingIn Given parsed.now scope) × (sort_of kind ≡ names → IsName h.world.kinds k) }
    ensures { (h : SettingIn Given parsed.entry.now scope) → (sort_of kind ≡ names → IsName h.world.kinds k) → result ≡ least (each (faults_at h) (leaf_sites kind k)) }
{
    match kind {
        NodeKind::NAMED => value_fault(parsed, scope, k),
        NodeKind::SCALE_NAME => scale_fault(parsed, scope, k),
        _ => None,
    }
}

// The faults of the node i, if it is a leaf.
fn leaf_fault(context: &Context, i: usize) -> Option<usize>
    requires { SettingOf context.now × (i ≤ context.now.lists.root) }
    ensures { (h : SettingOf context.entry.now) → result ≡ least (each (faults_at h) (site_at context.entry.now.nodes.now i)) }
{
    let node = context.nodes[i];
    let kind = tree::kind_of(node);
    let k = tree::token_of(node);
    match context.question {
        Question::Limits => number_fault(context.contents, kind, k),
        Question::Fresh => None,
        Question::Given => used_fault(&context.parsed(), context.scope, kind, k),
    }
}

// The faults of the leaves among the nodes from `from` up to `to`, which isn't one of them.
fn leaves_fault(context: &Context, from: usize, to: usize) -> Option<usize>
    requires { SettingOf context.now × (to ≤ context.now.lists.root + 1) }
    ensures { (h : SettingOf context.entry.now) → result ≡ least (each (faults_at h) (between context.entry.now.nodes.now from (to - from))) }
{
    (from..to).filter_map(|i| leaf_fault(context, i)).min()
}

// A scope without locals.
pub fn no_locals() -> Scope
    ensures { (length result.names ≡ local_limit) × (result.count ≡ 0) }
{
    Scope {
        names: [0; Limits::LOCALS],
        count: 0,
    }
}

// A scope with the local k more, if there is room.
fn with_local(scope: Scope, k: usize) -> Scope
    requires { k < field }
    ensures { Extended scope (k ∷ []) result }
{
    let n = scope.count;
    if n == Limits::LOCALS {
        return scope;
    }
    let mut names = scope.names;
    names[n] = k as u16;
    Scope {
        names,
        count: n + 1,
    }
}

// A scope with n locals more, every second token from `first` on.
// Bound names are told by their first token and their number, here and in the walk: each function counts from the one or compares the other, so that a struct of the two
// would be taken apart in every one.
// A `for` over j, as in repeated_fault: what is promised is of the first j names, which a range with steps of 2 would have to count again.
pub fn with_locals(scope: Scope, first: usize, n: usize) -> Scope
    requires { first + 2 * n ≤ field }
    ensures { Extended scope (every_other first n) result }
{
    let mut inner = scope;
    for j in 0..n {
        inner = with_local(inner, first + 2 * j);
    }
    inner
}

// Question 8 of the local k, which the variables and the locals in scope may have the name of.
fn taken_fault(parsed: &Parsed, scope: Scope, k: usize) -> Option<usize>
    requires { (h : SettingIn Fresh parsed.now scope) × IsName h.world.kinds k }
    ensures { (h : SettingIn Fresh parsed.entry.now scope) → IsName h.world.kinds k → result ≡ least (when (any (same h.world.word k) (known_in h)) k) }
{
    let taken = parsed.variable_named(k).is_some()
        || local_named(parsed.contents, scope, k).is_some();
    taken.then_some(k)
}

// Question 8 of n locals, every second token from `first` on.
fn repeated_fault(parsed: &Parsed, scope: Scope, first: usize, n: usize) -> Option<usize>
    requires { ((h : SettingIn Fresh parsed.now scope) × Named h.world.kinds (every_other first n)) × (scope.count + n ≤ local_limit) }
    ensures { (h : SettingIn Fresh parsed.entry.now scope) → Named h.world.kinds (every_other first n) → result ≡ least (repeated h.world.word (known_in h) (every_other first n)) }
{
    let mut found = None;
    let mut seen = scope;
    for j in 0..n {
        let k = first + 2 * j;
        found = earlier(found, taken_fault(parsed, seen, k));
        seen = with_local(seen, k);
    }
    found
}

// Question 7 of n locals, every second token from `first` on, where there is room for some. By an if, here and in `bound_fault`: then_some would take the token's number in
// both cases.
fn over_fault(room: usize, first: usize, n: usize) -> Option<usize>
    requires { first + 2 * n ≤ field }
    ensures { result ≡ least (drop room (every_other first n)) }
{
    if n <= room {
        return None;
    }
    Some(first + 2 * room)
}

// The faults of n names that a receive with so many sets binds.
fn bound_fault(context: &Context, first: usize, n: usize, sets: usize) -> Option<usize>
    requires { BindingOf context.now first n }
    ensures { (h : BindingOf context.entry.now first n) → result ≡ least (faults_at h.setting (bound (every_other first n) sets)) }
{
    match context.question {
        Question::Limits => over_fault(Limits::LOCALS - context.scope.count, first, n),
        Question::Fresh => repeated_fault(&context.parsed(), context.scope, first, n),
        Question::Given => {
            if n == sets {
                return None;
            }
            Some(first - 1)
        }
    }
}

// The faults of a branch with i others before it in its sum.
fn branch_fault(question: Question, i: usize, k: usize) -> Option<usize>
    ensures { (w : ℕ → List ℕ) (vs : List Variable) (ds : List Definition) (sc : List ℕ) → result ≡ least (site_faults question w vs ds sc (branch i k)) }
{
    match question {
        Question::Limits => (Limits::BRANCHES <= i).then_some(k),
        Question::Fresh | Question::Given => None,
    }
}

// A no to a question, with the token at fault.
#[derive(Clone, Copy)]
pub struct Fault {
    pub question: Question,
    pub token: usize,
}

// What a question answers: no, if a token is at fault.
fn answer(question: Question, found: Option<usize>) -> Result<(), Fault>
    ensures { result ≡ fault_of question found }
{
    match found {
        Some(token) => Err(Fault { question, token }),
        None => Ok(()),
    }
}

// Questions 7, 8 and 9, in this order, of a text's tokens and its tree.
pub fn judge_names(
    kinds: &[u8],
    contents: &[Content],
    nodes: &[u64],
    root: usize,
) -> Result<(), Fault>
    requires { (text : List ℕ) × (s : Syntax.Model) × Read text s kinds.now (lows_in contents.now) (highs_in contents.now) nodes.now root (length kinds.now) }
    ensures { (text : List ℕ) (s : Syntax.Model) → Read text s kinds.now (lows_in contents.now) (highs_in contents.now) nodes.now root (length kinds.now) → answer_of result ≡ judged_names text s }
{
    let parsed = &Parsed {
        contents,
        nodes,
        lists: lists_of(nodes, root),
    };
    let words = words_fault(kinds, contents);
    let tree = walk::tree_fault(Question::Limits, kinds, parsed);
    answer(Question::Limits, earlier(words, tree))?;
    answer(
        Question::Fresh,
        walk::tree_fault(Question::Fresh, kinds, parsed),
    )?;
    answer(
        Question::Given,
        walk::tree_fault(Question::Given, kinds, parsed),
    )
}
