#![tactic(auto)]

// The listing of a state: its entries in the listing buffer, their count and total, or a refusal under questions 12 to 14.
ghost use Rattle.std.specs.Prelude.{◌≡◌, ◌∷◌, [], suc, ◌+◌, ◌*◌, ◌≤◌, ◌<◌, length, List, ℕ, ℤ, pos, true, Err};
ghost use Rattle.rules.specs.Draw.{total, chosen};
ghost use Rattle.machine.specs.Machine.{entry_limit, entry_width, listing_length, total_limit};
ghost use Rattle.rules.specs.Listing as rules;
ghost use Rattle.machine.specs.Machine.{counted};
ghost use Rattle.std.proofs.Math.Option.{some};
ghost use Rattle.std.proofs.Math.ListN.{get_elem?};
ghost use Rattle.model.specs.Resolved as Resolved;
ghost use Rattle.rules.specs.Offers as offers;
ghost use Rattle.rules.specs.Listing.{gather, same_channel, all_within, any_match, matches};
ghost use Rattle.machine.specs.Evaluate.{rate_limit};
ghost use Rattle.machine.specs.State.{State, pair_width};
ghost use Rattle.state.specs.Test.{rows, ascends, place_of};
ghost use Rattle.state.specs.Read.{Passed, pair_count};
ghost use Rattle.eval.specs.Channels.{ShowsChannel};
ghost use Rattle.eval.specs.Shown.{ShowsValues, ShowsSets, ShowsQuery, ShowsPair};
ghost use Rattle.rules.specs.Rules.{key, rate_weight};
ghost use Rattle.rules.specs.Listing.{of_action, entries};
ghost use Rattle.machine.specs.Machine as machine;
ghost use Rattle.tree.specs.Node as node;
ghost use Rattle.machine.specs.Offer.{branches};
ghost use Rattle.state.specs.Read.{process_count};
ghost use Rattle.eval.specs.Shown.{ShowsAction};
ghost use Rattle.offers.specs.Head.{kind_in};
ghost use Rattle.offers.specs.Links.{row_limit, row_at};
ghost use Rattle.offers.specs.Slots.{Slot, partner_of, of_slot};
ghost use Rattle.offers.specs.Walk.{slots_of};
ghost use Rattle.offers.specs.Table.{locals_of, offer_in};
ghost use Rattle.offers.specs.Collect.{World};
ghost use Rattle.listing.specs.Ready.{Ready, RunIs, low_row, high_row, bound_at};
ghost use Rattle.listing.specs.Buffer.{numbers_of, entry_of, entry_in, image, cut, Adds, refusal_number, Lists, Leads, as_tried, of_offers, Tries, TriesOver, weights_in, totalled, chosen_answer};
ghost use Rattle.listing.specs.declared.Stop.TheVariants.{Refused, Full};
ghost use Rattle.std.specs.Simd.{first_chunks};

use eval::Context;
use eval::offer::{Offer, OfferSet};
pub use machine::EntryKind;
use offers::{Offers, Row, Space, Table};
use state::{Layout, Run};
use tables::Tables;
use tree::NodeKind;

#[derive(Clone, Copy)]
pub struct Limits;

impl Limits {
    // Entries that the buffer has room for, and numbers of one.
    pub const ENTRIES: usize = machine::Limits::ENTRIES;

    pub const ENTRY: usize = machine::Limits::ENTRY;

    // Where the numbers of an entry stand.
    pub const KIND: usize = 0;

    pub const PLACE: usize = 1;

    pub const BRANCH: usize = 2;

    pub const PARTNER: usize = 3;

    pub const PBRANCH: usize = 4;

    pub const PAIR: usize = 5;

    pub const WEIGHT: usize = 6;

    pub const TOTAL: u64 = 9000000000000000000;

    // A rate's ten-thousandths as hundred-millionths.
    pub const RATE: u64 = 10000;
}

// One line of the listing. Its kind is a number, as in the buffer: an entry is made of any seven numbers that a caller lends, C's matgravel_independent among them.
#[derive(Clone, Copy)]
pub struct Entry {
    pub kind: u64,
    pub place: usize,
    pub branch: usize,
    pub partner: usize,
    pub pbranch: usize,
    pub pair: usize,
    pub weight: u64,
}

// Why a state has no listing: a branch without value, too many entries, or too large a total.
#[derive(Clone, Copy)]
pub enum Refusal {
    Missing { place: usize, branch: usize },
    Entries,
    Total,
}

impl Refusal {
    pub fn number(self) -> u64
        ensures { result ≡ refusal_number self }
    {
        match self {
            Refusal::Missing { .. } => 12,
            Refusal::Entries => 13,
            Refusal::Total => 14,
        }
    }
}

// What a listing comes to: how many entries, and the total of their weights.
#[derive(Clone, Copy)]
pub struct Listed {
    pub count: usize,
    pub total: u64,
}

impl Listed {
    // The first of the entries whose running sum of weights exceeds the draw.
    pub fn choose(self, listing: &[u64], draw: u64) -> Option<usize>
        requires { (self.count * entry_width ≤ length listing.now) × (total (weights_in listing.now self.count) ≤ total_limit) }
        ensures { result ≡ chosen_answer (chosen (weights_in listing.now self.count) draw) }
    {
        let mut sum: u64 = 0;
        for (i, row) in rows_of(listing, self.count).iter().enumerate() {
            sum += row[Limits::WEIGHT];
            if draw < sum {
                return Some(i);
            }
        }
        None
    }
}

// Why a listing over a table of offers fails: it is refused, or the table has too few rows.
#[derive(Clone, Copy)]
enum Stop {
    Refused(Refusal),
    Full,
}

impl From<Refusal> for Stop {
    ghost from_gives = { λ r o. o ≡ Refused r };

    fn from(r: Refusal) -> Stop {
        Stop::Refused(r)
    }
}

impl From<offers::Stop> for Stop {
    ghost from_gives = { λ r o. o ≡ of_offers r };

    fn from(r: offers::Stop) -> Stop {
        match r {
            offers::Stop::Missing(place, branch) => Stop::Refused(Refusal::Missing {
                place,
                branch,
            }),
            offers::Stop::Full => Stop::Full,
        }
    }
}

impl From<Entry> for [u64; Limits::ENTRY] {
    ghost from_gives = { λ e row. row ≡ numbers_of e };

    fn from(e: Entry) -> [u64; Limits::ENTRY] {
        [
            e.kind,
            e.place as u64,
            e.branch as u64,
            e.partner as u64,
            e.pbranch as u64,
            e.pair as u64,
            e.weight,
        ]
    }
}

impl From<[u64; Limits::ENTRY]> for Entry {
    ghost from_gives = { λ row e. entry_of e ≡ entry_in row 0 };

    fn from(row: [u64; Limits::ENTRY]) -> Entry {
        Entry {
            kind: row[Limits::KIND],
            place: row[Limits::PLACE] as usize,
            branch: row[Limits::BRANCH] as usize,
            partner: row[Limits::PARTNER] as usize,
            pbranch: row[Limits::PBRANCH] as usize,
            pair: row[Limits::PAIR] as usize,
            weight: row[Limits::WEIGHT],
        }
    }
}

// One entry more: written if the buffer has room, and counted to one past its last. The buffer is a slice here and below, its length a clause or, in Filling, a
// ghost field: callers lend parts of larger buffers, and `first_chunk_mut`, which alone leaves known what is written through an array made of a slice, would be
// an unwrap with its proof wherever one is lent, to save that clause.
pub fn append(listing: &mut [u64], count: usize, e: Entry) -> usize
    requires { (length listing.old ≡ listing_length) × (count ≤ suc entry_limit) }
    ensures { Adds (entry_of e ∷ []) listing.old count listing.new result }
{
    if count < Limits::ENTRIES {
        let at = count * Limits::ENTRY;
        listing[at..at + Limits::ENTRY].copy_from_slice(&<[u64; Limits::ENTRY]>::from(e));
        return count + 1;
    }
    Limits::ENTRIES + 1
}

// A listing buffer while entries are added: the lent slice, and how many were, to one past its last. What adds to it promises, as `same`, that the slice stays the
// one that was lent: so the lender knows what was written.
#[derive(Drop)]
struct Filling<'a> {
    listing: &'a mut [u64],
    count: usize,
    ghost room: { (length listing.now ≡ listing_length) × (count ≤ suc entry_limit) },
}

impl<'a> Filling<'a> {
    // One entry more, as by `append`.
    fn add(&mut self, e: Entry)
        ensures same { self.new.listing.ghost_name ≡ self.old.listing.ghost_name }
        ensures added { Adds (entry_of e ∷ []) self.old.listing.now self.old.count self.new.listing.now self.new.count }
    {
        self.count = append(self.listing, self.count, e);
    }

    // Questions 13 and 14 of the entries that stand in the buffer.
    fn judge(&self) -> Result<Listed, Refusal>
        ensures { (z : List ℕ) (es : List rules.Entry) → self.now.listing.now ≡ image z es → self.now.count ≡ cut es → Leads (counted es) result self.now.listing.now }
    {
        if Limits::ENTRIES < self.count {
            return Err(Refusal::Entries);
        }
        let total = total_of(self.listing, self.count).ok_or(Refusal::Total)?;
        Ok(Listed {
            count: self.count,
            total,
        })
    }
}

// Entry c of a listing.
pub fn entry_at(listing: &[u64], c: usize) -> Entry
    requires { c * entry_width + entry_width ≤ length listing.now }
    ensures { entry_of result ≡ entry_in listing.now c }
{
    Entry::from(listing.as_chunks::<{ Limits::ENTRY }>().0[c])
}

// A branch that acts: its process's place, its number, and what it offers.
#[derive(Clone, Copy)]
struct Acting {
    place: usize,
    branch: usize,
    offer: Offer,
    ghost small: { offer.rate ≤ rate_limit },
}

// The first `count` entries, seven numbers each.
pub fn rows_of(listing: &[u64], count: usize) -> &[[u64; Limits::ENTRY]]
    requires { count * entry_width ≤ length listing.now }
    ensures { result.now ≡ first_chunks entry_width count listing.now }
{
    &listing.as_chunks::<{ Limits::ENTRY }>().0[..count]
}

// The sum of the weights of the first `count` entries, if it is within its limit.
pub fn total_of(listing: &[u64], count: usize) -> Option<u64>
    requires { count * entry_width ≤ length listing.now }
    ensures { result ≡ totalled (weights_in listing.now count) }
{
    let mut sum: u64 = 0;
    for row in rows_of(listing, count) {
        if Limits::TOTAL - sum < row[Limits::WEIGHT] {
            return None;
        }
        sum += row[Limits::WEIGHT];
    }
    Some(sum)
}

// Whether there are as many values as an offer has sets, each in its set. Count and values are those of a pair's row, or of an offer's list: Values would be
// made of them by both callers, for this test, which asks for count and numbers again.
fn values_match(context: &Context, o: Offer, count: usize, first: i64, second: i64) -> bool
    requires { (w : offers.Query) × ShowsQuery context.now.nodes.now context.now.locals.now o w }
    ensures { (w : offers.Query) (vs : List ℤ) → ShowsQuery context.now.nodes.now context.now.locals.now o w → ShowsValues count first (pos 0) second (pos 0) vs → result ≡ all_within w.sets vs }
{
    if o.list.count != count {
        return false;
    }
    let first_set = OfferSet::of(o.list.first, o.list.first_end);
    if !eval::offer::in_offer_set_lent(context, first_set, first) {
        return false;
    }
    if count < 2 {
        return true;
    }
    let second_set = OfferSet::of(o.list.second, o.list.second_end);
    eval::offer::in_offer_set_lent(context, second_set, second)
}

// A receive or a check that acts, with the context of its sets and the state whose pairs it asks for. That it shows a query is no ghost field: it is said of each
// query.
#[derive(Clone, Copy)]
struct Asking<'a> {
    context: Context<'a>,
    state: &'a [i64],
    acting: Acting,
}

// Whether the values of the lit pair q match what a branch asks for.
fn pair_matches(asking: Asking, q: usize) -> bool
    requires { ((w : offers.Query) × ShowsQuery asking.context.nodes.now asking.context.locals.now asking.acting.offer w) × ((t : List ℕ) × (roots : List ℕ) × (scopes : List ℕ) × (m : Resolved.Model) × (s : State) × World t roots scopes asking.state.now m s) × (q < pair_count asking.state.now) }
    ensures { (w : offers.Query) (t roots scopes : List ℕ) (m : Resolved.Model) (s : State) (x : offers.Pair) → ShowsQuery asking.entry.context.nodes.now asking.entry.context.locals.now asking.entry.acting.offer w → World t roots scopes asking.entry.state.now m s → get_elem? s.pairs q ≡ some x → result ≡ all_within w.sets x.values }
{
    let row = state::pair_row(asking.state, q);
    let count = row[Layout::CHANNEL] as usize;
    values_match(
        &asking.context,
        asking.acting.offer,
        count,
        row[Layout::VALUES],
        row[Layout::VALUES + 1],
    )
}

// How many of the pairs, which ascend, stand before those with so many values on a channel, the first of them from low to high, and how many up to the last of these. The row has the
// channel's numbers.
fn value_run(
    pairs: &[[i64; Layout::PAIR]],
    row: &mut [i64; Layout::PAIR],
    count: usize,
    low: i64,
    high: i64,
) -> Run
    requires { (ascends pairs.now ≡ true) × (count ≤ 2) }
    ensures { (result.from ≡ place_of (low_row row.old count low) pairs.now) × (result.to ≡ place_of (high_row row.old count low high) pairs.now) }
{
    row[Layout::CHANNEL] = count as i64;
    row[Layout::VALUES] = low;
    row[Layout::VALUES + 1] = value::Range::LEAST;
    let from = state::find_pair(pairs, row);
    row[Layout::VALUES] = high;
    row[Layout::VALUES + 1] = value::Range::GREATEST + 1;
    let to = state::find_pair(pairs, row);
    Run { from, to }
}

// The run of the lit pairs that an offer can match: those on its channel, as far as the first set, if it is a range, holds their first values.
fn run_of(state: &[i64], o: Offer) -> Run
    requires { ((t : List ℕ) × (roots : List ℕ) × (scopes : List ℕ) × (m : Resolved.Model) × (s : State) × World t roots scopes state.now m s) × (o.list.count ≤ 2) }
    ensures { (nodes : List ℕ) (ls : List ℤ) (w : offers.Query) (t roots scopes : List ℕ) (m : Resolved.Model) (s : State) → ShowsQuery nodes ls o w → World t roots scopes state.now m s → RunIs s.pairs w result.from result.to }
{
    let pairs = state::lit_pairs(state);
    let mut row = [0i64; Layout::PAIR];
    o.channel.put(&mut row);
    let OfferSet::Range(low, high) = OfferSet::of(o.list.first, o.list.first_end) else {
        return state::channel_run(pairs, &mut row);
    };
    let run = value_run(pairs, &mut row, o.list.count, low, high);
    Run {
        to: run.to.max(run.from),
        ..run
    }
}

// Whether any lit pair of a run matches what a branch asks for.
fn any_match(asking: Asking, run: Run) -> bool
    requires { ((w : offers.Query) × ShowsQuery asking.context.nodes.now asking.context.locals.now asking.acting.offer w) × ((t : List ℕ) × (roots : List ℕ) × (scopes : List ℕ) × (m : Resolved.Model) × (s : State) × World t roots scopes asking.state.now m s) × (run.to ≤ pair_count asking.state.now) }
    ensures { (w : offers.Query) (t roots scopes : List ℕ) (m : Resolved.Model) (s : State) → ShowsQuery asking.entry.context.nodes.now asking.entry.context.locals.now asking.entry.acting.offer w → World t roots scopes asking.entry.state.now m s → RunIs s.pairs w run.from run.to → result ≡ any_match w s.pairs }
{
    // A `for`: by `any`, what its closure tells of each pair couldn't be turned into the test of that pair, and that the answer is `any_match` stayed open.
    for q in run.from..run.to {
        if pair_matches(asking, q) {
            return true;
        }
    }
    false
}

// The entry of a receive with names for the lit pair q, if it matches.
fn list_pair(asking: Asking, q: usize, filling: &mut Filling)
    requires { ((w : offers.Query) × ShowsQuery asking.context.nodes.now asking.context.locals.now asking.acting.offer w) × ((t : List ℕ) × (roots : List ℕ) × (scopes : List ℕ) × (m : Resolved.Model) × (s : State) × World t roots scopes asking.state.now m s) × (q < pair_count asking.state.now) }
    ensures same { filling.new.listing.ghost_name ≡ filling.old.listing.ghost_name }
    ensures added { (w : offers.Query) (t roots scopes : List ℕ) (m : Resolved.Model) (s : State) (x : offers.Pair) → ShowsQuery asking.entry.context.nodes.now asking.entry.context.locals.now asking.entry.acting.offer w → World t roots scopes asking.entry.state.now m s → get_elem? s.pairs q ≡ some x → w.channel ≡ x.channel → Adds (bound_at w asking.entry.acting.place asking.entry.acting.branch asking.entry.acting.offer.rate q x) filling.old.listing.now filling.old.count filling.new.listing.now filling.new.count }
{
    if !pair_matches(asking, q) {
        return;
    }
    filling.add(Entry {
        kind: EntryKind::BIND,
        place: asking.acting.place,
        branch: asking.acting.branch,
        partner: 0,
        pbranch: 0,
        pair: q,
        weight: asking.acting.offer.rate * Limits::RATE,
    });
}

// The entries of a receive with names: one for each lit pair of a run that matches.
fn list_bound(asking: Asking, run: Run, filling: &mut Filling)
    requires { ((w : offers.Query) × ShowsQuery asking.context.nodes.now asking.context.locals.now asking.acting.offer w) × ((t : List ℕ) × (roots : List ℕ) × (scopes : List ℕ) × (m : Resolved.Model) × (s : State) × World t roots scopes asking.state.now m s) × (run.to ≤ pair_count asking.state.now) }
    ensures same { filling.new.listing.ghost_name ≡ filling.old.listing.ghost_name }
    ensures added { (w : offers.Query) (t roots scopes : List ℕ) (m : Resolved.Model) (s : State) → ShowsQuery asking.entry.context.nodes.now asking.entry.context.locals.now asking.entry.acting.offer w → World t roots scopes asking.entry.state.now m s → RunIs s.pairs w run.from run.to → Adds (gather (bound_at w asking.entry.acting.place asking.entry.acting.branch asking.entry.acting.offer.rate) s.pairs) filling.old.listing.now filling.old.count filling.new.listing.now filling.new.count }
{
    for q in run.from..run.to {
        list_pair(asking, q, filling);
    }
}

// What entries are listed from: a state, its tables, and what its open branches offer, each at a lifetime of its own, as try_over has them. That they are Ready is
// no ghost field: it is said of each model and state.
#[derive(Clone, Copy)]
struct Source<'a, 'b, 'c> {
    tables: Tables<'a>,
    state: &'b [i64],
    offered: Offers<'c>,
}

// Whether the handshake receive in a row matches what a branch sends.
fn row_matches(from: Source, row: usize, sender: Offer) -> bool
    requires { ((roots : List ℕ) × (m : Resolved.Model) × (s : State) × Ready from.tables.nodes.now roots from.tables.scopes.now from.state.now from.offered.rows.now m s) × (node.hand_receive ≤ kind_in (row_at from.offered.rows.now row).head) × (row < length from.offered.rows.now) }
    ensures { (roots : List ℕ) (m : Resolved.Model) (s : State) (y : Slot) (w : offers.Query) (x : offers.Pair) → Ready from.entry.tables.nodes.now roots from.entry.tables.scopes.now from.entry.state.now from.entry.offered.rows.now m s → get_elem? (slots_of m 0 s.processes) row ≡ some y → ShowsQuery from.entry.tables.nodes.now (locals_of s.processes y.place) (offer_in (row_at from.entry.offered.rows.now row)) w → ShowsPair sender x → result ≡ matches w x }
{
    let r = from.offered.rows[row];
    let o = offers::offer_in(r);
    if o.channel != sender.channel {
        return false;
    }
    let place = offers::place_in(r.head);
    let locals = offers::locals_of(from.tables.scopes, from.state, place);
    let context = Context {
        nodes: from.tables.nodes,
        locals,
    };
    values_match(
        &context,
        o,
        sender.list.count,
        sender.list.first,
        sender.list.second,
    )
}

// The entry of a handshake with the receive in a row, if that is of another process and matches.
fn list_partner(from: Source, row: usize, sender: Acting, filling: &mut Filling)
    requires { ((roots : List ℕ) × (m : Resolved.Model) × (s : State) × Ready from.tables.nodes.now roots from.tables.scopes.now from.state.now from.offered.rows.now m s) × (node.hand_receive ≤ kind_in (row_at from.offered.rows.now row).head) × (row < length from.offered.rows.now) }
    ensures same { filling.new.listing.ghost_name ≡ filling.old.listing.ghost_name }
    ensures added { (roots : List ℕ) (m : Resolved.Model) (s : State) (y : Slot) (x : offers.Pair) → Ready from.entry.tables.nodes.now roots from.entry.tables.scopes.now from.entry.state.now from.entry.offered.rows.now m s → get_elem? (slots_of m 0 s.processes) row ≡ some y → ShowsPair sender.offer x → Adds (partner_of x sender.offer.rate sender.place sender.branch y) filling.old.listing.now filling.old.count filling.new.listing.now filling.new.count }
{
    let head = from.offered.rows[row].head;
    let partner = offers::place_in(head);
    if partner == sender.place {
        return;
    }
    if !row_matches(from, row, sender.offer) {
        return;
    }
    let pbranch = offers::branch_in(head);
    let rate = offers::rate_in(head);
    filling.add(Entry {
        kind: EntryKind::HANDSHAKE,
        place: sender.place,
        branch: sender.branch,
        partner,
        pbranch,
        pair: 0,
        weight: sender.offer.rate * rate,
    });
}

// The entries of a handshake send: one for each receive of another process that matches.
fn list_partners(from: Source, sender: Acting, filling: &mut Filling)
    requires { (roots : List ℕ) × (m : Resolved.Model) × (s : State) × Ready from.tables.nodes.now roots from.tables.scopes.now from.state.now from.offered.rows.now m s }
    ensures same { filling.new.listing.ghost_name ≡ filling.old.listing.ghost_name }
    ensures added { (roots : List ℕ) (m : Resolved.Model) (s : State) (x : offers.Pair) → Ready from.entry.tables.nodes.now roots from.entry.tables.scopes.now from.entry.state.now from.entry.offered.rows.now m s → ShowsPair sender.offer x → Adds (gather (λ n. partner_of x sender.offer.rate sender.place sender.branch) (slots_of m 0 s.processes)) filling.old.listing.now filling.old.count filling.new.listing.now filling.new.count }
{
    let bucket = offers::bucket_of(
        sender.offer.channel.first,
        sender.offer.channel.second,
        sender.offer.channel.third,
    );
    let mut row = from.offered.firsts[bucket] as usize;
    // A while: it follows links.
    while row < from.offered.rows.len() {
        list_partner(from, row, sender, filling);
        row = from.offered.nexts[row] as usize;
    }
}

// The entry of a branch that acts by itself.
fn list_alone(a: Acting, kind: u64, filling: &mut Filling)
    ensures same { filling.new.listing.ghost_name ≡ filling.old.listing.ghost_name }
    ensures added { Adds (rules.entry (key kind a.place a.branch 0 0 0) (rate_weight a.offer.rate) ∷ []) filling.old.listing.now filling.old.count filling.new.listing.now filling.new.count }
{
    filling.add(Entry {
        kind,
        place: a.place,
        branch: a.branch,
        partner: 0,
        pbranch: 0,
        pair: 0,
        weight: a.offer.rate * Limits::RATE,
    });
}

// The entries of a receive or a check.
fn list_query(tables: Tables, state: &[i64], a: Acting, filling: &mut Filling)
    requires { ((roots : List ℕ) × (m : Resolved.Model) × (s : State) × (x : offers.Action) × World tables.nodes.now roots tables.scopes.now state.now m s × ShowsAction tables.nodes.now (locals_of s.processes a.place) a.offer x) × (node.kill < a.offer.kind) × (a.offer.kind < node.hand_send) × (a.place < process_count state.now) }
    ensures same { filling.new.listing.ghost_name ≡ filling.old.listing.ghost_name }
    ensures added { (roots : List ℕ) (m : Resolved.Model) (s : State) (x : offers.Action) → World tables.entry.nodes.now roots tables.entry.scopes.now state.now m s → ShowsAction tables.entry.nodes.now (locals_of s.processes a.place) a.offer x → Adds (of_action (branches m) s a.place a.branch a.offer.rate x) filling.old.listing.now filling.old.count filling.new.listing.now filling.new.count }
{
    let locals = offers::locals_of(tables.scopes, state, a.place);
    let context = Context {
        nodes: tables.nodes,
        locals,
    };
    let asking = Asking {
        context,
        state,
        acting: a,
    };
    let run = run_of(state, a.offer);
    if a.offer.kind == NodeKind::BIND {
        list_bound(asking, run, filling);
        return;
    }
    // Ifs: a receive with names is listed before any pair is asked, and the other two differ in what the answer means.
    let lit = any_match(asking, run);
    if a.offer.kind == NodeKind::RECEIVE {
        if lit {
            list_alone(a, EntryKind::RECEIVE, filling);
        }
        return;
    }
    if !lit {
        list_alone(a, EntryKind::CHECK, filling);
    }
}

// The entries of the branch in a row.
fn list_row(from: Source, row: usize, filling: &mut Filling)
    requires { ((roots : List ℕ) × (m : Resolved.Model) × (s : State) × Ready from.tables.nodes.now roots from.tables.scopes.now from.state.now from.offered.rows.now m s) × (row < length from.offered.rows.now) }
    ensures same { filling.new.listing.ghost_name ≡ filling.old.listing.ghost_name }
    ensures added { (roots : List ℕ) (m : Resolved.Model) (s : State) (y : Slot) → Ready from.entry.tables.nodes.now roots from.entry.tables.scopes.now from.entry.state.now from.entry.offered.rows.now m s → get_elem? (slots_of m 0 s.processes) row ≡ some y → Adds (of_slot (branches m) s y) filling.old.listing.now filling.old.count filling.new.listing.now filling.new.count }
{
    let r = from.offered.rows[row];
    let a = Acting {
        place: offers::place_in(r.head),
        branch: offers::branch_in(r.head),
        offer: offers::offer_in(r),
    };
    match a.offer.kind {
        NodeKind::WAIT => list_alone(a, EntryKind::WAIT, filling),
        NodeKind::LAUNCH => list_alone(a, EntryKind::LAUNCH, filling),
        NodeKind::KILL => list_alone(a, EntryKind::KILL, filling),
        NodeKind::RECEIVE | NodeKind::BIND | NodeKind::CHECK => {
            list_query(from.tables, from.state, a, filling)
        }
        NodeKind::HAND_SEND => list_partners(from, a, filling),
        _ => {}
    }
}

// The entries of all rows, in order; none is sought past the first that the buffer has no room for.
fn list_rows(from: Source, filling: &mut Filling)
    requires { (roots : List ℕ) × (m : Resolved.Model) × (s : State) × Ready from.tables.nodes.now roots from.tables.scopes.now from.state.now from.offered.rows.now m s }
    ensures same { filling.new.listing.ghost_name ≡ filling.old.listing.ghost_name }
    ensures added { (roots : List ℕ) (m : Resolved.Model) (s : State) → Ready from.entry.tables.nodes.now roots from.entry.tables.scopes.now from.entry.state.now from.entry.offered.rows.now m s → Adds (entries (branches m) s) filling.old.listing.now filling.old.count filling.new.listing.now filling.new.count }
{
    for row in 0..from.offered.rows.len() {
        if Limits::ENTRIES < filling.count {
            return;
        }
        list_row(from, row, filling);
    }
}

// Lists what can happen next, questions 12 to 14, if the lent table has a row for each offer. What stands in the buffer after the entries stays. Rows and links are lent one by one, here and in
// list_over, as a caller of list_over may have them.
fn try_over(
    tables: Tables,
    state: &[i64],
    rows: &mut [Row],
    firsts: &mut [u16; Table::BUCKETS],
    nexts: &mut [u16],
    listing: &mut [u64],
) -> Result<Listed, Stop>
    requires { ((m : Resolved.Model) × (s : State) × World tables.nodes.now tables.roots.now tables.scopes.now state.now m s) × (length listing.old ≡ listing_length) × (length rows.old ≤ row_limit) × (length nexts.old ≡ length rows.old) }
    ensures { (m : Resolved.Model) (s : State) → World tables.entry.nodes.now tables.entry.roots.now tables.entry.scopes.now state.now m s → TriesOver (length rows.old) (machine.listing m s) listing.new result }
{
    let count = offers::collect(tables, state, rows)?;
    offers::link(&rows[..count], firsts, &mut nexts[..count]);
    let offered = Offers {
        rows: &rows[..count],
        firsts,
        nexts: &nexts[..count],
    };
    let from = Source {
        tables,
        state,
        offered,
    };
    let mut filling = Filling { listing, count: 0 };
    list_rows(from, &mut filling);
    Ok(filling.judge()?)
}

// What is listed over a table that isn't full.
fn past_full(listed: Result<Listed, Stop>) -> Result<Listed, Refusal>
    requires { listed ≡ Err Full → ⊥ }
    ensures { listed ≡ as_tried result }
{
    match listed {
        Ok(l) => Ok(l),
        Err(Stop::Refused(refusal)) => Err(refusal),
        Err(Stop::Full) => unreachable!(),
    }
}

// The same in a lent table with room for all offers.
pub fn list_over(
    tables: Tables,
    state: &[i64],
    rows: &mut [Row],
    firsts: &mut [u16; Table::BUCKETS],
    nexts: &mut [u16],
    listing: &mut [u64],
) -> Result<Listed, Refusal>
    requires { ((m : Resolved.Model) × (s : State) × World tables.nodes.now tables.roots.now tables.scopes.now state.now m s) × (length listing.old ≡ listing_length) × (length rows.old ≡ row_limit) × (length nexts.old ≡ row_limit) }
    ensures { (m : Resolved.Model) (s : State) → World tables.entry.nodes.now tables.entry.roots.now tables.entry.scopes.now state.now m s → Leads (machine.listing m s) result listing.new }
{
    past_full(try_over(tables, state, rows, firsts, nexts, listing))
}

// The same in a table of its own, if that has a row for each offer, and with zeros after the entries.
fn list_in<const ROWS: usize>(
    tables: Tables,
    state: &[i64],
    listing: &mut [u64],
) -> Result<Listed, Stop>
    requires { ((m : Resolved.Model) × (s : State) × World tables.nodes.now tables.roots.now tables.scopes.now state.now m s) × (length listing.old ≡ listing_length) × (ROWS ≤ row_limit) }
    ensures { (m : Resolved.Model) (s : State) → World tables.entry.nodes.now tables.entry.roots.now tables.entry.scopes.now state.now m s → Tries ROWS (machine.listing m s) listing.new result }
{
    let mut space = Space::<ROWS>::EMPTY;
    let listed = try_over(
        tables,
        state,
        &mut space.rows,
        &mut space.firsts,
        &mut space.nexts,
        listing,
    );
    match listed {
        Ok(l) => listing[l.count * Limits::ENTRY..].fill(0),
        Err(Stop::Refused(_)) => listing.fill(0),
        Err(Stop::Full) => {}
    }
    listed
}

// The same in a small table, and in a large one where that is full.
pub fn list_here(tables: Tables, state: &[i64], listing: &mut [u64]) -> Result<Listed, Refusal>
    requires { ((m : Resolved.Model) × (s : State) × World tables.nodes.now tables.roots.now tables.scopes.now state.now m s) × (length listing.old ≡ listing_length) }
    ensures { (m : Resolved.Model) (s : State) → World tables.entry.nodes.now tables.entry.roots.now tables.entry.scopes.now state.now m s → Lists (machine.listing m s) result listing.new }
{
    match list_in::<{ Table::FEW }>(tables, state, listing) {
        Ok(listed) => Ok(listed),
        Err(Stop::Refused(refusal)) => Err(refusal),
        Err(Stop::Full) => past_full(list_in::<{ Table::ROWS }>(tables, state, listing)),
    }
}
