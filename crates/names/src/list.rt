// A list of names in the nodes: of a model's variables, or of its definitions.
ghost use Rattle.token.specs.Contents.{lows_in, highs_in};
ghost use Rattle.std.specs.Prelude.{◌≡◌, [], ◌-◌, ◌≤◌, ◌<◌, length, drop};
ghost use Rattle.model.specs.Lists.{least, when, any};
ghost use Rattle.model.specs.Words.{same};
ghost use Rattle.model.specs.Fresh.{repeated};
ghost use Rattle.model.specs.Given.{place_in};
ghost use Rattle.names.specs.Lists.{packed_in, found_of, name_at, names_down, Reach};
ghost use Rattle.names.specs.Walks.{list_faults};

use crate::Question;
use token::Content;
use tree::NodeKind;

// It goes down from the node `first`.
#[derive(Clone, Copy)]
pub struct NameList<'a> {
    pub contents: &'a [Content],
    pub nodes: &'a [u64],
    pub first: usize,
    pub count: usize,
    ghost reach: { Reach (lows_in contents.now) (highs_in contents.now) nodes.now first count },
}

impl<'a> NameList<'a> {
    // The name in place j: a variable's stands in its node, a definition's in the node to the left.
    fn name(self, j: usize) -> usize
        requires { j < self.count }
        ensures { result ≡ name_at self.entry.nodes.now (self.entry.first - j) }
    {
        let node = self.nodes[self.first - j];
        if tree::kind_of(node) == NodeKind::VARIABLE {
            return tree::token_of(node);
        }
        tree::token_of(self.nodes[tree::left_of(node)])
    }

    // The place of the name k.
    pub fn place_of(self, k: usize) -> Option<usize>
        requires { k < length self.contents.now }
        ensures { result ≡ found_of (place_in (packed_in self.entry.contents.now) k 0 (names_down self.entry.nodes.now self.entry.first self.entry.count)) }
    {
        (0..self.count).find(|&j| crate::same_name(self.contents, k, self.name(j)))
    }

    // The list of its first j names. A struct with a ghost field has no `..` update.
    fn head(self, j: usize) -> NameList<'a>
        requires { j ≤ self.count }
        ensures { (result.contents ≡ self.entry.contents) × (result.nodes ≡ self.entry.nodes) × (result.first ≡ self.entry.first) × (result.count ≡ j) }
    {
        NameList {
            contents: self.contents,
            nodes: self.nodes,
            first: self.first,
            count: j,
        }
    }

    // Question 8 of the name in place j.
    fn again_fault(self, j: usize) -> Option<usize>
        requires { j < self.count }
        ensures { result ≡ least (when (any (same (packed_in self.entry.contents.now) (name_at self.entry.nodes.now (self.entry.first - j))) (names_down self.entry.nodes.now self.entry.first j)) (name_at self.entry.nodes.now (self.entry.first - j))) }
    {
        let k = self.name(j);
        self.head(j).place_of(k).is_some().then_some(k)
    }

    // Question 8 of all of them.
    fn twice_fault(self) -> Option<usize>
        ensures { result ≡ least (repeated (packed_in self.entry.contents.now) [] (names_down self.entry.nodes.now self.entry.first self.entry.count)) }
    {
        (0..self.count).filter_map(|j| self.again_fault(j)).min()
    }

    // Question 7 of all of them: those past the limit.
    fn past_fault(self, limit: usize) -> Option<usize>
        ensures { result ≡ least (drop limit (names_down self.entry.nodes.now self.entry.first self.entry.count)) }
    {
        (limit..self.count).map(|j| self.name(j)).min()
    }

    // Questions 7 and 8 of all of them.
    pub(crate) fn fault(self, question: Question, limit: usize) -> Option<usize>
        ensures { result ≡ least (list_faults question (packed_in self.entry.contents.now) limit (names_down self.entry.nodes.now self.entry.first self.entry.count)) }
    {
        match question {
            Question::Limits => self.past_fault(limit),
            Question::Fresh => self.twice_fault(),
            Question::Given => None,
        }
    }
}
