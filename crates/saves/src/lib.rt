#![tactic(auto)]

// The buffer of the saves: names as two numbers, a state with its clock, the exact test of question 11, and what a save, a return and a forget write.
ghost use Rattle.std.specs.Prelude.{◌≡◌, true, List, [], ◌∷◌, ◌+◌, ◌*◌, ◌≤◌, ◌<◌, ℤ, length, IfSome};
ghost use Rattle.word.specs.Name.{word_bytes};
ghost use Rattle.clock.specs.Clock.{InRange};
ghost use Rattle.machine.specs.State.{state_length};
ghost use Rattle.machine.specs.Saves.{is_letter, is_name, save_limit, first_of, key_width, saves_length};
ghost use Rattle.state.specs.Test.{every};
ghost use Rattle.saves.specs.Keys.{is_word, is_key, is_key_of};
ghost use Rattle.saves.specs.Kept.{besides, is_natural, clock_at, is_clock, is_kept};
ghost use Rattle.saves.specs.Places.{kept_part, has_key, is_place, is_once, are_once, places_of, is_saves};
ghost use Rattle.saves.specs.Change.{below, key_of, place_to_take, refusal_number, number_of, saving_numbers, returning_numbers, forgetting_numbers, Stores};

use clock::Clock;
use state::Shape;

#[derive(Clone, Copy)]
pub struct Layout;

impl Layout {
    // Numbers of a name; of a state, which stands after it; of that and a clock's two.
    pub const KEY: usize = 2;

    pub const STATE: usize = state::Layout::NUMBERS;

    pub const KEPT: usize = Layout::STATE + 2;

    // Where a place's clock stands, after the name and the state; numbers of a place.
    pub const CLOCK: usize = Layout::KEY + Layout::STATE;

    pub const PLACE: usize = Layout::KEY + Layout::KEPT;

    // Places, and the numbers of all.
    pub const PLACES: usize = 8;

    pub const SAVES: usize = Layout::PLACES * Layout::PLACE;

    // No word of fewer than eight letters is as large.
    pub const FULL: u64 = 72057594037927936;
}

// ---- names

// Whether a number is up to eight letters. They are taken off as the definition takes them: of `to_le_bytes` the letters would be tested first, and the rest for zeros. The loop's number is the proof's: its invariant counts the letters that are off.
fn is_word(word: u64) -> bool
    ensures { result ≡ is_word word_bytes word }
{
    let mut w = word;
    for i in 0..word::Limits::WORD {
        if w == 0 {
            return true;
        }
        if !((w % 256) as u8).is_ascii_alphabetic() {
            return false;
        }
        w /= 256;
    }
    w == 0
}

#[tactic(auto, unfolding(crate::specs::Keys::is_key, crate::specs::Keys::is_second))]
fn are_words(a: u64, b: u64) -> bool
    ensures { result ≡ is_key a b }
{
    1 <= a && (is_word(a) && (b == 0 || (Layout::FULL <= a && is_word(b))))
}

// Whether two numbers are a name's.
#[tactic(auto, unfolding(crate::specs::Keys::is_key_of))]
fn is_key(low: i64, high: i64) -> bool
    ensures { result ≡ is_key_of low high }
{
    0 <= low && (0 <= high && are_words(low as u64, high as u64))
}

fn all_letters(s: &[u8]) -> bool
    ensures { result ≡ every is_letter s.now }
{
    s.iter().all(u8::is_ascii_alphabetic)
}

#[tactic(auto, using(crate::proofs::Names::letters_every), unfolding(machine::specs::Saves::is_name))]
fn is_name(name: &[u8]) -> bool
    ensures { result ≡ is_name name.now }
{
    1 <= name.len() && (name.len() <= word::Limits::NAME && all_letters(name))
}

// A name's two numbers, if it is a name.
pub fn key_of(name: &[u8]) -> Option<[i64; Layout::KEY]>
    ensures { result ≡ key_of name.now }
{
    if !is_name(name) {
        return None;
    }
    let (low, high) = word::packed(name)?;
    Some([low as i64, high as i64])
}

// ---- places

// Whether a row begins with the two numbers of a key, each compared as the definition does.
#[tactic(auto, unfolding(crate::specs::Places::has_key))]
fn has_key(row: &[i64; Layout::PLACE], key: &[i64]) -> bool
    requires { key_width ≤ length key.now }
    ensures { result ≡ has_key key.now row.now }
{
    row[0] == key[0] && row[1] == key[1]
}

// The places of saves. The saves are a slice, as C lends them; question 1 tests their length once.
fn places_in(saves: &[i64]) -> &[[i64; Layout::PLACE]]
    requires { length saves.now ≡ saves_length }
    ensures { (result.now ≡ places_of saves.now) × (length result.now ≡ save_limit) }
{
    saves.as_chunks::<{ Layout::PLACE }>().0
}

// The first place with such a key.
pub fn find_place(places: &[[i64; Layout::PLACE]], key: &[i64]) -> Option<usize>
    requires { key_width ≤ length key.now }
    ensures place { result ≡ below (length places.now) (first_of (has_key key.now) places.now) }
    ensures within { IfSome result (λ i. i < length places.now) }
{
    places.iter().position(|row| has_key(row, key))
}

// The place with such a key, else the first empty one.
#[tactic(auto, unfolding(crate::specs::Change::below, crate::specs::Change::place_to_take))]
pub fn place_for(saves: &[i64], key: &[i64]) -> Option<usize>
    requires { (length saves.now ≡ saves_length) × (key_width ≤ length key.now) }
    ensures place { result ≡ below save_limit (place_to_take key.now saves.now) }
    ensures within { IfSome result (λ i. i < save_limit) }
{
    let places = places_in(saves);
    find_place(places, key).or(find_place(places, &[0; Layout::KEY]))
}

// ---- a state with its clock

// The clock of two numbers that aren't below 0. Numbers of a state, which are signed: script's clocks have words.
#[tactic(auto, unfolding(crate::specs::Kept::is_natural))]
pub fn clock_at(ticks: i64, draws: i64) -> Clock
    requires { (is_natural ticks ≡ true) × (is_natural draws ≡ true) }
    ensures { result ≡ clock_at (ticks ∷ draws ∷ []) }
{
    Clock {
        ticks: ticks as u64,
        draws: draws as u64,
    }
}

// Writes a state's numbers, and a clock's after them.
pub fn put_kept(kept: &mut [i64; Layout::KEPT], state: &[i64], clock: Clock)
    requires { (length state.now ≡ state_length) × InRange clock }
    ensures { kept.new ≡ besides state.now clock }
{
    kept[..Layout::STATE].copy_from_slice(state);
    kept[Layout::STATE] = clock.ticks as i64;
    kept[Layout::STATE + 1] = clock.draws as i64;
}

// ---- question 11

// Whether two numbers are a clock's.
#[tactic(auto, unfolding(crate::specs::Kept::is_clock, crate::specs::Kept::is_natural))]
fn is_clock(ticks: i64, draws: i64) -> bool
    ensures { result ≡ is_clock (ticks ∷ draws ∷ []) }
{
    0 <= ticks && (0 <= draws && clock::in_range(clock_at(ticks, draws)))
}

// Whether a place's numbers after the name are those of a state over the sums with these scopes and so many channel names, and of a clock.
fn is_kept(row: &[i64; Layout::PLACE], shape: Shape) -> bool
    ensures { result ≡ is_kept shape.entry.scopes.now shape.entry.channels (kept_part row.now) }
{
    state::is_state(&row[Layout::KEY..Layout::CLOCK], shape)
        && is_clock(row[Layout::CLOCK], row[Layout::CLOCK + 1])
}

// Whether a place is empty, or has a name, and a state and a clock.
#[tactic(auto, unfolding(crate::specs::Places::is_place))]
fn is_place(row: &[i64; Layout::PLACE], shape: Shape) -> bool
    ensures { result ≡ is_place shape.entry.scopes.now shape.entry.channels row.now }
{
    if row[0] == 0 {
        return state::all_zero(row);
    }
    is_key(row[0], row[1]) && is_kept(row, shape)
}

// Whether none of the later places has a place's name.
fn is_once(place: &[i64; Layout::PLACE], later: &[[i64; Layout::PLACE]]) -> bool
    ensures { result ≡ is_once place.now later.now }
{
    if place[0] == 0 {
        return true;
    }
    let key = [place[0], place[1]];
    find_place(later, &key).is_none()
}

// A `for`: each place is tested against those after it, of which `all` would be told by a closure that captures the places.
fn are_once(places: &[[i64; Layout::PLACE]]) -> bool
    ensures { result ≡ are_once places.now }
{
    for (i, place) in places.iter().enumerate() {
        if !is_once(place, &places[i + 1..]) {
            return false;
        }
    }
    true
}

// Whether the numbers are those of saves over the sums with these scopes and so many channel names.
pub fn is_saves(saves: &[i64], shape: Shape) -> bool
    requires { length saves.now ≡ saves_length }
    ensures { result ≡ is_saves shape.entry.scopes.now shape.entry.channels saves.now }
{
    let places = places_in(saves);
    places.iter().all(|row| is_place(row, shape)) && are_once(places)
}

// ---- save, return, forget

// Why a save, a return or a forget is refused: no name, nothing saved under it, no place left.
#[derive(Clone, Copy)]
pub enum Refusal {
    NotAName,
    NotSaved,
    Full,
}

impl Refusal {
    pub fn number(self) -> u64
        ensures { result ≡ refusal_number self }
    {
        match self {
            Refusal::NotAName => 20,
            Refusal::NotSaved => 21,
            Refusal::Full => 22,
        }
    }
}

// Saves a state with its clock under a name.
pub fn save(saves: &mut [i64], kept: &[i64; Layout::KEPT], name: &[u8]) -> Result<(), Refusal>
    requires { length saves.old ≡ saves_length }
    ensures { Stores (saving_numbers name.now kept.now saves.old) (number_of result) kept.now saves.new }
{
    let key = key_of(name).ok_or(Refusal::NotAName)?;
    let at = place_for(&saves[..], &key).ok_or(Refusal::Full)?;
    let from = at * Layout::PLACE;
    let middle = from + Layout::KEY;
    saves[from..middle].copy_from_slice(&key);
    saves[middle..middle + Layout::KEPT].copy_from_slice(kept);
    Ok(())
}

// Copies the state and the clock under a name.
pub fn return_to(kept: &mut [i64; Layout::KEPT], saves: &[i64], name: &[u8]) -> Result<(), Refusal>
    requires { length saves.now ≡ saves_length }
    ensures { Stores (returning_numbers name.now kept.old saves.now) (number_of result) kept.new saves.now }
{
    let key = key_of(name).ok_or(Refusal::NotAName)?;
    let at = find_place(places_in(saves), &key).ok_or(Refusal::NotSaved)?;
    let from = at * Layout::PLACE + Layout::KEY;
    let to = from + Layout::KEPT;
    kept.copy_from_slice(&saves[from..to]);
    Ok(())
}

// Empties the place of a name.
pub fn forget(saves: &mut [i64], name: &[u8]) -> Result<(), Refusal>
    requires { length saves.old ≡ saves_length }
    ensures { (zs : List ℤ) → Stores (forgetting_numbers name.now zs saves.old) (number_of result) zs saves.new }
{
    let key = key_of(name).ok_or(Refusal::NotAName)?;
    let at = find_place(places_in(&saves[..]), &key).ok_or(Refusal::NotSaved)?;
    let from = at * Layout::PLACE;
    let to = from + Layout::PLACE;
    saves[from..to].fill(0);
    Ok(())
}
