// Questions 7, 8 and 9 of a whole tree: each part is judged in its scope, and the first fault of all is kept.
// The bound of a root stands in each contract: as a ghost field of a struct over a lent Context it lost the size of the nodes, and their index stayed unproved.
// A part's nodes go as two numbers, `from` and `root`: most calls give a part new ends, so that a struct of the two would be made in the call and taken apart in the function.
ghost use Rattle.token.specs.Contents.{lows_in};
ghost use Rattle.std.specs.Prelude.{◌≡◌, List, ◌∷◌, ◌++◌, true, not, ◌&&◌, ◌||◌, ℕ, ◌+◌, ◌-◌, ◌*◌, ◌≤◌, ◌<◌, min, eqb, ltb, length, get_or};
ghost use Rattle.word.specs.Number.{worth, cap};
ghost use Rattle.token.specs.Kind as kind;
ghost use Rattle.grammar.specs.Syntax;
ghost use Rattle.tree.specs.Node.{field, kind_of, token_of, left_of, third_of, named, counted, counted_with};
ghost use Rattle.tree.specs.Table;
ghost use Rattle.model.specs.Lists.{least, when, each, every_other};
ghost use Rattle.model.specs.Sites.{branch, call, count_sets, count_args, args_sites, item_sites, channel_sites, action_sites, rate_sites, names, variables, definitions, starts_in};
ghost use Rattle.model.specs.Limits.{count_limit, local_limit};
ghost use Rattle.names.specs.Settings.{Extended, WorldOf, SettingOf, faults_at};
ghost use Rattle.names.specs.Faults.{asks_names, tree_faults};
ghost use Rattle.names.specs.Placed.{Named, sort_of, counts};
ghost use Rattle.names.specs.Walks.{Part, Holds, RoomFor, PlaceOf, part_faults, bound_sites, ActionRoom, PartRoom, GroundIn, GroundOf, number_faults, param_faults, defined, count_faults, start_faults, definition_judged, lines_judged, DefinitionRoom, LinesRoom, TreeRoom};

use crate::{Context, Limits, Parsed, Question, Scope, no_locals};
use token::Content;
use tree::NodeKind;

// How many sets stand at this root.
fn set_count(nodes: &[u64], root: usize) -> usize
    requires { root < length nodes.now }
    ensures { (s : Syntax.Sets) (lo : ℕ) → Table.Sets nodes.now s lo root → result ≡ count_sets s }
{
    if tree::kind_of(nodes[root]) == NodeKind::PAIR {
        return 2;
    }
    1
}

// Whether an item's node is a lone name: the token after a name in brackets is `)`.
fn is_lone(kinds: &[u8], node: u64) -> bool
    ensures { result ≡ (eqb (kind_of node) named && not (eqb (get_or kinds.now (token_of node + 1) 0) kind.close_round)) }
{
    tree::kind_of(node) == NodeKind::NAMED && token::peek(kinds, tree::token_of(node) + 1) != b')'
}

// The faults of a channel's item from the node `from` to its root; a lone name has none.
fn item_fault(context: &Context, from: usize, root: usize) -> Option<usize>
    requires { PlaceOf context.now × (root ≤ context.now.lists.root) }
    ensures { (h : PlaceOf context.entry.now) (c : Syntax.Expr) → Table.Expr context.entry.now.nodes.now c from root → result ≡ least (each (faults_at h.setting) (item_sites h.setting.world.word c)) }
{
    if is_lone(context.kinds, context.nodes[root]) {
        return None;
    }
    crate::leaves_fault(context, from, root + 1)
}

// The faults of a channel from the node `from` to its root.
fn channel_fault(context: &Context, from: usize, root: usize) -> Option<usize>
    requires { (PlaceOf context.now × (c : Syntax.Channel) × Table.Channel context.now.nodes.now c from root) × (root ≤ context.now.lists.root) }
    ensures { (h : PlaceOf context.entry.now) (c : Syntax.Channel) → Table.Channel context.entry.now.nodes.now c from root → result ≡ least (each (faults_at h.setting) (channel_sites h.setting.world.word c)) }
{
    let node = context.nodes[root];
    let kind = tree::kind_of(node);
    if kind < NodeKind::TWO_ITEMS {
        return item_fault(context, from, root);
    }
    let left = tree::left_of(node);
    let first = item_fault(context, from, left);
    if kind == NodeKind::TWO_ITEMS {
        let last = item_fault(context, left + 1, root - 1);
        return crate::earlier(first, last);
    }
    let mid = tree::third_of(node);
    let second = item_fault(context, left + 1, mid);
    let last = item_fault(context, mid + 1, root - 1);
    crate::earlier(first, crate::earlier(second, last))
}

// The faults of the names that the action at this root binds.
fn binding_fault(context: &Context, root: usize) -> Option<usize>
    requires { ((h : SettingOf context.now) × (a : Syntax.Action) × (lo : ℕ) × Table.Action context.now.nodes.now a lo root × RoomFor context.now.question h.world.word h.locals (bound_sites a)) × (root ≤ context.now.lists.root) }
    ensures { (h : SettingOf context.entry.now) (a : Syntax.Action) (lo : ℕ) → Table.Action context.entry.now.nodes.now a lo root → RoomFor context.entry.now.question h.world.word h.locals (bound_sites a) → result ≡ least (each (faults_at h) (bound_sites a)) }
{
    let node = context.nodes[root];
    let n = tree::third_of(node);
    if n == 0 {
        return None;
    }
    let sets = set_count(context.nodes, root - 1);
    crate::bound_fault(context, tree::token_of(node), n, sets)
}

// The faults of an action from the node `from` to its root.
fn action_fault(context: &Context, from: usize, root: usize) -> Option<usize>
    requires { ((h : PlaceOf context.now) × (a : Syntax.Action) × Table.Action context.now.nodes.now a from root × ActionRoom h a) × (root ≤ context.now.lists.root) }
    ensures { (h : PlaceOf context.entry.now) (a : Syntax.Action) → Table.Action context.entry.now.nodes.now a from root → ActionRoom h a → result ≡ least (each (faults_at h.setting) (action_sites h.setting.world.word a)) }
{
    let node = context.nodes[root];
    if tree::kind_of(node) == NodeKind::WAIT {
        return None;
    }
    let left = tree::left_of(node);
    let channel = channel_fault(context, from, left);
    let values = crate::leaves_fault(context, left + 1, root);
    let bound = binding_fault(context, root);
    crate::earlier(channel, crate::earlier(values, bound))
}

// The nodes of a part: how many branches of its sum stand before it, its first node and its root.
#[derive(Clone, Copy)]
pub struct Span {
    pub before: usize,
    pub from: usize,
    pub root: usize,
}

// The faults of a branch without its gate and its continuation: its node, the nodes of its action and its rate.
fn offer_fault(context: &Context, node: u64, own: Span) -> Option<usize>
    requires { ((h : PlaceOf context.now) × (a : Syntax.Action) × Table.Action context.now.nodes.now a own.from (left_of node) × ActionRoom h a) × (left_of node ≤ context.now.lists.root) × (own.root ≤ context.now.lists.root) }
    ensures { (h : PlaceOf context.entry.now) (a : Syntax.Action) (ρ : Syntax.Rate) → Table.Action context.entry.now.nodes.now a own.from (left_of node) → Table.Rate context.entry.now.nodes.now ρ (left_of node + 1) own.root → ActionRoom h a → result ≡ least (each (faults_at h.setting) (branch own.before (token_of node) ∷ action_sites h.setting.world.word a ++ rate_sites ρ)) }
{
    let from = own.from;
    let rate = own.root;
    let left = tree::left_of(node);
    let start = crate::branch_fault(context.question, own.before, tree::token_of(node));
    let action = action_fault(context, from, left);
    let values = crate::leaves_fault(context, left + 1, rate + 1);
    crate::earlier(start, crate::earlier(action, values))
}

// The faults of a call with its values.
fn calling_fault(context: &Context, from: usize, root: usize) -> Option<usize>
    requires { (SettingOf context.now × (n : ℕ) × (a : Syntax.Args) × Table.Cont context.now.nodes.now (Syntax.call n a) from root) × (root ≤ context.now.lists.root) }
    ensures { (h : SettingOf context.entry.now) (n : ℕ) (a : Syntax.Args) → Table.Cont context.entry.now.nodes.now (Syntax.call n a) from root → result ≡ least (each (faults_at h) (call n (count_args a) ∷ args_sites a)) }
{
    let node = context.nodes[root];
    let name = tree::token_of(node);
    let called = crate::call_fault(context, name, tree::third_of(node));
    crate::earlier(called, crate::leaves_fault(context, from, root))
}

// The scope with the names more that the action at this root binds.
fn inner_scope(nodes: &[u64], scope: Scope, root: usize) -> Scope
    requires { (root < length nodes.now) × (token_of (get_or nodes.now root 0) + 2 * third_of (get_or nodes.now root 0) ≤ field) }
    ensures { Extended scope (every_other (token_of (get_or nodes.now root 0)) (third_of (get_or nodes.now root 0))) result }
{
    let node = nodes[root];
    crate::with_locals(scope, tree::token_of(node), tree::third_of(node))
}

// The faults of branches, items or sums.
fn part_fault(context: &Context, part: Span) -> Option<usize>
    requires { ((h : PlaceOf context.now) × (p : Part) × Holds context.now.nodes.now p part.from part.root × PartRoom h part.before p) × (part.before + part.root ≤ context.now.lists.root) }
    ensures { (h : PlaceOf context.entry.now) (p : Part) → Holds context.entry.now.nodes.now p part.from part.root → PartRoom h part.before p → result ≡ least (part_faults h part.before p) }
{
    let Span { before, from, root } = part;
    let node = context.nodes[root];
    let left = tree::left_of(node);
    match tree::kind_of(node) {
        NodeKind::CHOICE | NodeKind::ITEM | NodeKind::BESIDE => {
            let one = Span {
                before,
                from,
                root: left,
            };
            let rest = Span {
                before: before + 1,
                from: left + 1,
                root: root - 1,
            };
            let first = part_fault(context, one);
            let others = part_fault(context, rest);
            crate::earlier(first, others)
        }
        NodeKind::SUM | NodeKind::GROUP => {
            let inner = Span {
                before: 0,
                from,
                root: root - 1,
            };
            part_fault(context, inner)
        }
        NodeKind::GATE => {
            let rest = Span {
                before,
                from: left + 1,
                root: root - 1,
            };
            let gate = crate::leaves_fault(context, from, left + 1);
            let offer = part_fault(context, rest);
            crate::earlier(gate, offer)
        }
        NodeKind::STOP => {
            let own = Span {
                before,
                from,
                root: root - 1,
            };
            offer_fault(context, node, own)
        }
        NodeKind::DOT => {
            let rate = tree::third_of(node);
            let own = Span {
                before,
                from,
                root: rate,
            };
            let rest = Span {
                before: 0,
                from: rate + 1,
                root: root - 1,
            };
            let offer = offer_fault(context, node, own);
            let inner = inner_scope(context.nodes, context.scope, left);
            let next = part_fault(&context.within(inner), rest);
            crate::earlier(offer, next)
        }
        _ => calling_fault(context, from, root),
    }
}

// Questions 7 and 8 of a definition's n parameters, every second token from `first` on.
fn params_fault(context: &Context, first: usize, n: usize) -> Option<usize>
    requires { ((h : WorldOf context.now) × Named h.kinds (every_other first n)) × (first + 2 * n ≤ field) × (asks_names context.now.question ≡ true → n ≤ local_limit) }
    ensures { (h : WorldOf context.entry.now) → Named h.kinds (every_other first n) → result ≡ least (param_faults context.entry.now.question h.word (names (variables h.model)) (every_other first n)) }
{
    match context.question {
        Question::Limits => crate::over_fault(Limits::PARAMETERS, first, n),
        Question::Fresh => crate::repeated_fault(&context.parsed(), no_locals(), first, n),
        Question::Given => None,
    }
}

// The faults of a definition from the node `from` to its root.
fn definition_fault(context: &Context, from: usize, root: usize) -> Option<usize>
    requires { ((h : GroundOf context.now) × (n : ℕ) × (p : Syntax.Params) × (b : Syntax.Sums) × Table.Definition context.now.nodes.now n p b from root × DefinitionRoom h (defined n p b)) × (root ≤ context.now.lists.root) }
    ensures { (h : GroundOf context.entry.now) (n : ℕ) (p : Syntax.Params) (b : Syntax.Sums) → Table.Definition context.entry.now.nodes.now n p b from root → DefinitionRoom h (defined n p b) → result ≡ least (definition_judged h context.entry.now.question (defined n p b)) }
{
    let node = context.nodes[root];
    let first = tree::token_of(node) + 2;
    let n = tree::third_of(node);
    let params = params_fault(context, first, n);
    let scope = crate::with_locals(no_locals(), first, n);
    let part = Span {
        before: 0,
        from,
        root: root - 1,
    };
    let body = part_fault(&context.within(scope), part);
    crate::earlier(params, body)
}

// Whether an item of the system line has a count, by the kind of its node.
fn is_counted(kind: u8) -> bool
    ensures { result ≡ (eqb kind counted || eqb kind counted_with) }
{
    matches!(kind, NodeKind::COUNTED | NodeKind::COUNTED_WITH)
}

// Question 7 of the count k.
fn over_count(contents: &[Content], k: usize) -> Option<usize>
    requires { k < length contents.now }
    ensures { (w : ℕ → List ℕ) → get_or (lows_in contents.now) k 0 ≡ min cap (worth 0 (w k)) → result ≡ least (when (ltb count_limit (worth 0 (w k))) k) }
{
    (Limits::COUNT < contents[k].low).then_some(k)
}

// Question 7 of the count of an item with this node, if it has one.
fn count_fault(contents: &[Content], node: u64) -> Option<usize>
    requires { sort_of (kind_of node) ≡ counts → (2 ≤ token_of node) × (token_of node - 2 < length contents.now) }
    ensures { (w : ℕ → List ℕ) → (sort_of (kind_of node) ≡ counts → get_or (lows_in contents.now) (token_of node - 2) 0 ≡ min cap (worth 0 (w (token_of node - 2)))) → result ≡ least (count_faults (kind_of node) w (token_of node - 2)) }
{
    if is_counted(tree::kind_of(node)) {
        return over_count(contents, tree::token_of(node) - 2);
    }
    None
}

// The faults of an item of the system line from the node `from` to its root.
fn start_fault(context: &Context, from: usize, root: usize) -> Option<usize>
    requires { (WorldOf context.now × (s : Syntax.Start) × Table.Start context.now.nodes.now s from root) × (root ≤ context.now.lists.root) }
    ensures { (h : WorldOf context.entry.now) (s : Syntax.Start) → Table.Start context.entry.now.nodes.now s from root → result ≡ least (start_faults context.entry.now.question h.word (definitions h.model) s) }
{
    let node = context.nodes[root];
    match context.question {
        Question::Limits => {
            let count = count_fault(context.contents, node);
            crate::earlier(
                count,
                crate::leaves_fault(&context.within(no_locals()), from, root),
            )
        }
        Question::Fresh => None,
        Question::Given => {
            let name = tree::token_of(node);
            crate::call_fault(context, name, tree::third_of(node))
        }
    }
}

// The faults of the items of the system line from the node `from` to their root.
fn system_fault(context: &Context, from: usize, root: usize) -> Option<usize>
    requires { (WorldOf context.now × (s : Syntax.System) × Table.System context.now.nodes.now s from root) × (root ≤ context.now.lists.root) }
    ensures { (h : WorldOf context.entry.now) (s : Syntax.System) → Table.System context.entry.now.nodes.now s from root → result ≡ least (each (start_faults context.entry.now.question h.word (definitions h.model)) (starts_in s)) }
{
    let node = context.nodes[root];
    if tree::kind_of(node) != NodeKind::SYSTEM {
        return start_fault(context, from, root);
    }
    let left = tree::left_of(node);
    let first = start_fault(context, from, left);
    let others = system_fault(context, left + 1, root - 1);
    crate::earlier(first, others)
}

// The faults of definitions and the system line from the node `from` to their root.
fn lines_fault(context: &Context, from: usize, root: usize) -> Option<usize>
    requires { ((h : GroundOf context.now) × (d : Syntax.Definitions) × Table.Definitions context.now.nodes.now d from root × LinesRoom h d) × (root ≤ context.now.lists.root) }
    ensures { (h : GroundOf context.entry.now) (d : Syntax.Definitions) → Table.Definitions context.entry.now.nodes.now d from root → LinesRoom h d → result ≡ least (lines_judged h context.entry.now.question d) }
{
    let node = context.nodes[root];
    let left = tree::left_of(node);
    let first = definition_fault(context, from, left);
    if tree::kind_of(node) == NodeKind::LAST {
        return crate::earlier(first, system_fault(context, left + 1, root - 1));
    }
    let others = lines_fault(context, left + 1, root - 1);
    crate::earlier(first, others)
}

// Question 7 of the variables' numbers, which stand in the first nodes.
fn numbers_fault(context: &Context) -> Option<usize>
    requires { WorldOf context.now }
    ensures { (h : WorldOf context.entry.now) → result ≡ least (number_faults context.entry.now.question h.word (variables h.model)) }
{
    match context.question {
        Question::Limits => {
            let variables = context.lists.variables;
            crate::leaves_fault(&context.within(no_locals()), 0, variables)
        }
        Question::Fresh | Question::Given => None,
    }
}

// The faults of a whole tree, but for those that its tokens alone tell.
pub fn tree_fault(question: Question, kinds: &[u8], parsed: &Parsed) -> Option<usize>
    requires { (h : GroundIn question kinds.now parsed.now) × TreeRoom h }
    ensures { (h : GroundIn question kinds.now parsed.entry.now) → TreeRoom h → result ≡ least (tree_faults question h.world.word h.world.model) }
{
    let lists = parsed.lists;
    let context = &Context {
        question,
        kinds,
        contents: parsed.contents,
        nodes: parsed.nodes,
        lists,
        scope: no_locals(),
    };
    let names = parsed.variables().fault(question, Limits::VARIABLES);
    let titles = parsed.definitions().fault(question, Limits::DEFINITIONS);
    let numbers = numbers_fault(context);
    let lines = lines_fault(context, lists.variables, lists.first_definition());
    crate::earlier(
        names,
        crate::earlier(titles, crate::earlier(numbers, lines)),
    )
}
