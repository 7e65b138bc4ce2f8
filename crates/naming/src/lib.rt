#![tactic(auto)]

// The names of a model's waits: the tokens that are waits, and the number of each one's name.
ghost use Rattle.std.specs.Prelude.{◌≡◌, Bool, true, false, List, ℕ, ◌+◌, ◌≤◌, ◌<◌, get_or, length};
ghost use Rattle.grammar.specs.Limit.{token_limit};
ghost use Rattle.model.specs.Lists.{each};
ghost use Rattle.model.specs.Resolved as Resolved;
ghost use Rattle.tables.specs.Settled as Settled;
ghost use Rattle.tables.specs.Spelled.{Spells};
ghost use Rattle.waitnames.specs.Names.{branch_waits, all_waits, name_tokens};
ghost use Rattle.naming.specs.Marks.{marked, Within, Shown, place_or, Found, Numbers, code_of};

use syntax::question::Limits;
use tables::Tables;
use tree::NodeKind;

// The most tokens of a text.
pub const TOKENS: usize = Limits::TOKENS;

// ---- waits

// Marks the token of the branch at k, if it is a wait.
fn mark_branch(nodes: &[u64], k: usize, marks: &mut [bool; TOKENS])
    requires { (b : Resolved.Branch) × Settled.Branch nodes.now b k × Within token_limit (branch_waits b) }
    ensures { (b : Resolved.Branch) → Settled.Branch nodes.now b k → marks.new ≡ marked marks.old (branch_waits b) }
{
    let offer = eval::next::past_gate(nodes, k);
    let prefix = eval::cell_at(nodes, offer);
    let action = eval::cell_at(nodes, tree::left_of(prefix));
    if tree::kind_of(action) == NodeKind::WAIT {
        marks[tree::token_of(action)] = true;
    }
}

// Marks the waits of the branches at a root.
fn mark_branches(nodes: &[u64], root: usize, marks: &mut [bool; TOKENS])
    requires { (bs : List Resolved.Branch) × Settled.Branches nodes.now bs root × Within token_limit (each branch_waits bs) }
    ensures { (bs : List Resolved.Branch) → Settled.Branches nodes.now bs root → marks.new ≡ marked marks.old (each branch_waits bs) }
{
    let mut k = root;
    while tree::kind_of(eval::cell_at(nodes, k)) == NodeKind::CHOICE {
        mark_branch(nodes, tree::left_of(eval::cell_at(nodes, k)), marks);
        k -= 1;
    }
    mark_branch(nodes, k, marks);
}

// Marks all waits of a model with so many sums.
fn mark_waits(tables: Tables, sums: usize, marks: &mut [bool; TOKENS])
    requires { (m : Resolved.Model) × Shown tables.nodes.now tables.roots.now sums m × Within token_limit (all_waits m) }
    ensures { (m : Resolved.Model) → Shown tables.entry.nodes.now tables.entry.roots.now sums m → marks.new ≡ marked marks.old (all_waits m) }
{
    for n in 0..sums {
        mark_branches(tables.nodes, usize::from(tables.roots[n]), marks);
    }
}

// ---- names

// Number n of a table, 0 beyond its end.
fn number_at(table: &[u16], n: usize) -> usize
    ensures { result ≡ get_or table.now n 0 }
{
    table.get(n).map_or(0, |x| usize::from(*x))
}

// A text's bytes, and where its tokens stand.
#[derive(Clone, Copy)]
pub struct Words<'a> {
    pub text: &'a [u8],
    pub places: &'a [u16],
    pub sizes: &'a [u16],
}

impl<'a> Words<'a> {
    // The bytes of a token.
    pub fn word(self, token: usize) -> &'a [u8]
        requires { (w : ℕ → List ℕ) × Spells w self.text.now self.places.now self.sizes.now }
        ensures { (w : ℕ → List ℕ) → Spells w self.entry.text.now self.entry.places.now self.entry.sizes.now → result.now ≡ w token }
    {
        let text = self.text;
        let from = number_at(self.places, token);
        let to = from + number_at(self.sizes, token);
        &text[from..to]
    }

    // The place of the first of these names that token k has; their number where it has none.
    fn place_of(self, names: &[u16], k: usize) -> usize
        requires { (w : ℕ → List ℕ) × Spells w self.text.now self.places.now self.sizes.now }
        ensures { (w : ℕ → List ℕ) → Spells w self.entry.text.now self.entry.places.now self.entry.sizes.now → result ≡ place_or w k names.now }
    {
        let word = self.word(k);
        for (i, &name) in names.iter().enumerate() {
            if word == self.word(usize::from(name)) {
                return i;
            }
        }
        names.len()
    }
}

impl<'a> Words<'a> {
    // One more than the place of the first of these names that is spelled so; 0 where none is.
    pub fn code_of(self, names: &[u16], name: &[u8]) -> usize
        requires { (w : ℕ → List ℕ) × Spells w self.text.now self.places.now self.sizes.now }
        ensures code { (m : Resolved.Model) → Spells m.words self.entry.text.now self.entry.places.now self.entry.sizes.now → names.now ≡ name_tokens m → result ≡ code_of m name.now }
        ensures few { result ≤ length names.now }
    {
        for (i, &token) in names.iter().enumerate() {
            if name == self.word(usize::from(token)) {
                return i + 1;
            }
        }
        0
    }
}

// One marked token more: the place of its name, and its name, if it has none of those before; how many there are then. Tokens and numbers are two arrays, not a WaitNames: of an array that is a
// parameter its length is known.
fn number_wait(
    words: Words,
    tokens: &mut [u16; TOKENS],
    numbers: &mut [u16; TOKENS],
    count: usize,
    k: usize,
) -> usize
    requires { ((w : ℕ → List ℕ) × Spells w words.text.now words.places.now words.sizes.now) × (count ≤ k) × (k < token_limit) }
    ensures found { (w : ℕ → List ℕ) (marks : List Bool) → Spells w words.entry.text.now words.entry.places.now words.entry.sizes.now → get_or marks k false ≡ true → Found w marks tokens.old numbers.old count k → Found w marks tokens.new numbers.new result (k + 1) }
    ensures few { result ≤ k + 1 }
{
    let n = words.place_of(&tokens[..count], k);
    numbers[k] = n as u16;
    if n != count {
        return count;
    }
    tokens[count] = k as u16;
    count + 1
}

// The tokens of the wait names of a model, in the order of the text, and how many there are; at each wait's token the number of its name.
#[derive(Drop)]
pub struct WaitNames {
    pub tokens: [u16; TOKENS],
    pub count: usize,
    pub numbers: [u16; TOKENS],
}

impl WaitNames {
    pub const EMPTY: Self = WaitNames {
        tokens: [0; TOKENS],
        count: 0,
        numbers: [0; TOKENS],
    };

    // One token more, if it is marked.
    fn meet(&mut self, words: Words, marks: &[bool; TOKENS], k: usize)
        requires { ((w : ℕ → List ℕ) × Spells w words.text.now words.places.now words.sizes.now) × (self.old.count ≤ k) × (k < token_limit) }
        ensures found { (w : ℕ → List ℕ) → Spells w words.entry.text.now words.entry.places.now words.entry.sizes.now → Found w marks.now self.old.tokens self.old.numbers self.old.count k → Found w marks.now self.new.tokens self.new.numbers self.new.count (k + 1) }
        ensures few { self.new.count ≤ k + 1 }
    {
        if marks[k] {
            self.count = number_wait(words, &mut self.tokens, &mut self.numbers, self.count, k);
        }
    }

    // The names of the marked tokens.
    fn meet_all(&mut self, words: Words, marks: &[bool; TOKENS])
        requires { ((w : ℕ → List ℕ) × Spells w words.text.now words.places.now words.sizes.now) × (self.old.count ≡ 0) }
        ensures found { (w : ℕ → List ℕ) → Spells w words.entry.text.now words.entry.places.now words.entry.sizes.now → Found w marks.now self.new.tokens self.new.numbers self.new.count token_limit }
        ensures few { self.new.count ≤ token_limit }
    {
        for k in 0..TOKENS {
            self.meet(words, marks, k);
        }
    }

    // The names of a model with so many sums.
    pub fn find(&mut self, tables: Tables, sums: usize, words: Words)
        requires { ((m : Resolved.Model) × Shown tables.nodes.now tables.roots.now sums m × Spells m.words words.text.now words.places.now words.sizes.now × Within token_limit (all_waits m)) × (self.old.count ≡ 0) }
        ensures numbers { (m : Resolved.Model) → Shown tables.entry.nodes.now tables.entry.roots.now sums m → Spells m.words words.entry.text.now words.entry.places.now words.entry.sizes.now → Within token_limit (all_waits m) → Numbers m self.new.tokens self.new.numbers self.new.count }
        ensures few { self.new.count ≤ token_limit }
    {
        let mut marks = [false; TOKENS];
        mark_waits(tables, sums, &mut marks);
        self.meet_all(words, &marks);
    }
}
