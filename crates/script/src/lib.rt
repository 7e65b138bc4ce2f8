#![tactic(auto)]

// A script of calls on one engine: thirteen numbers a row, run in order on lent buffers.
ghost use Rattle.std.specs.Prelude.{◌≡◌, true, false, ◌+◌, ◌-◌, ◌≤◌, leb, length, MatchResult};
ghost use Rattle.buffers.specs.Parts.{lent_whole};
ghost use Rattle.buffers.specs.Effect.{effect};
ghost use Rattle.script.specs.Rows.{answer_width, row_of, kind_number, is_kind, fits, row_ask, row_call};
ghost use Rattle.script.specs.Run.{lent_five, lent_of, held, Kept, lent_at, put_at, room_of, call_left, all_numbers, result_numbers, found_numbers, ran_numbers, progress_numbers, Makes, RowRanAt, Ran};
ghost use Rattle.script.specs.Follows.{Refines};

use clock::Clock;
use engine::{Answer, Simulated, Timed, searches};
use resuming::Progress;
use searching::Found;

// A row: the kind of call; place and size of its text or name, and of its waiting draws; its draw, depth, limit or number of states; how many numbers of the output, the model, the state, the saves and the search it is lent; place and size of its words.
// A script is lent as plain numbers, so that a row may be any thirteen, and is a call or none.
#[derive(Clone, Copy)]
pub struct Row {
    pub kind: u64,
    pub text: usize,
    pub size: usize,
    pub from: usize,
    pub count: usize,
    pub number: u64,
    pub output: usize,
    pub model: usize,
    pub state: usize,
    pub saves: usize,
    pub search: usize,
    pub start: usize,
    pub words: usize,
}

impl Row {
    // Numbers of a row, and of an answer.
    pub const WIDTH: usize = 13;

    pub const ANSWER: usize = 18;

    // Numbers of a row's part of the outputs.
    pub const OUTPUT: usize = 8192;

    // Numbers of a clock.
    pub const CLOCK: usize = 2;

    // The kinds of calls, as a script lends them, from OPEN to LAST.
    pub const OPEN: u64 = 1;

    pub const LIST: u64 = 2;

    pub const STEP: u64 = 3;

    pub const REPORT: u64 = 4;

    pub const SAVE: u64 = 5;

    pub const RETURN: u64 = 6;

    pub const FORGET: u64 = 7;

    pub const TIMED: u64 = 8;

    pub const STEADY: u64 = 9;

    pub const SEARCH: u64 = 10;

    pub const RUN: u64 = 11;

    pub const BEGIN: u64 = 12;

    pub const CARRY: u64 = 13;

    pub const LAST: u64 = Row::CARRY;
}

// What the rows of a script name parts of: texts, waiting draws and words.
#[derive(Clone, Copy)]
struct Given<'a> {
    texts: &'a [u8],
    numbers: &'a [u16],
    words: &'a [u64],
}

// What a run is lent to write, of whatever lengths a caller has: the engine's parts, the outputs and the answers.
#[derive(Drop)]
struct Lent<'a> {
    model: &'a mut [u8],
    state: &'a mut [i64],
    saves: &'a mut [i64],
    search: &'a mut [i64],
    clock: &'a mut [u64],
    outputs: &'a mut [u64],
    answers: &'a mut [u64],
}

// What a row asks of the engine.
#[derive(Clone, Copy)]
enum Kind {
    Open,
    List,
    Step,
    Report,
    Save,
    Return,
    Forget,
    Timed,
    Steady,
    Search,
    Run,
    Begin,
    Carry,
}

// A number that is no kind's.
#[derive(Clone, Copy)]
struct NoKind;

// The kind of which a row has the number.
impl TryFrom<u64> for Kind {
    type Error = NoKind;

    ghost try_from_gives = { λ n r. MatchResult r (λ k. (kind_number k ≡ n) × (is_kind n ≡ true)) (λ e. is_kind n ≡ false) };

    #[tactic(auto, unfolding(crate::specs::Rows::kind_number, crate::specs::Rows::is_kind))]
    fn try_from(number: u64) -> Result<Self, NoKind> {
        match number {
            Row::OPEN => Ok(Kind::Open),
            Row::LIST => Ok(Kind::List),
            Row::STEP => Ok(Kind::Step),
            Row::REPORT => Ok(Kind::Report),
            Row::SAVE => Ok(Kind::Save),
            Row::RETURN => Ok(Kind::Return),
            Row::FORGET => Ok(Kind::Forget),
            Row::TIMED => Ok(Kind::Timed),
            Row::STEADY => Ok(Kind::Steady),
            Row::SEARCH => Ok(Kind::Search),
            Row::RUN => Ok(Kind::Run),
            Row::BEGIN => Ok(Kind::Begin),
            Row::CARRY => Ok(Kind::Carry),
            _ => Err(NoKind),
        }
    }
}

// The numbers of an answer, and the clock that its call leaves.
#[derive(Clone, Copy)]
struct Reply {
    numbers: [u64; Row::ANSWER],
    clock: Clock,
}

impl Reply {
    // The numbers of an answer, of the run that a search found, and of what a run of steps used, or whether a search has ended. Number by number, as all_numbers lists them: by cuts it would be three
    // copies over zeros.
    #[tactic(auto, unfolding(crate::specs::Run::all_numbers))]
    fn of(
        answer: Answer,
        length: u64,
        run: [u64; Found::DEPTH],
        used: [u64; 3],
        clock: Clock,
    ) -> Self
        ensures { (result.numbers ≡ all_numbers answer length run used) × (result.clock ≡ clock) }
    {
        Reply {
            numbers: [
                answer.number,
                answer.place,
                answer.branch,
                answer.count,
                answer.total,
                answer.chosen,
                length,
                run[0],
                run[1],
                run[2],
                run[3],
                run[4],
                run[5],
                run[6],
                run[7],
                used[0],
                used[1],
                used[2],
            ],
            clock,
        }
    }

    // An answer that tells of no run.
    #[tactic(auto, unfolding(crate::specs::Run::all_numbers, crate::specs::Run::result_numbers))]
    fn plain(answer: Answer, clock: Clock) -> Self
        ensures { (result.numbers ≡ result_numbers answer) × (result.clock ≡ clock) }
    {
        Reply::of(answer, 0, [0; Found::DEPTH], [0; 3], clock)
    }
}

// What a call that moves the clock tells.
impl From<Timed> for Reply {
    ghost from_gives = { λ t m. (m.numbers ≡ result_numbers t.answer) × (m.clock ≡ t.clock) };

    fn from(t: Timed) -> Self {
        Reply::plain(t.answer, t.clock)
    }
}

// What a run of steps tells.
impl From<Simulated> for Reply {
    ghost from_gives = { λ s m. (m.numbers ≡ ran_numbers s.ran) × (m.clock ≡ s.clock) };

    #[tactic(auto, unfolding(crate::specs::Run::all_numbers, crate::specs::Run::ran_numbers))]
    fn from(s: Simulated) -> Self {
        let ran = s.ran;
        let answer = Answer::filled(ran.number, ran.count, ran.total, 0);
        Reply::of(
            answer,
            0,
            [0; Found::DEPTH],
            [ran.steps, ran.words, ran.waiting],
            s.clock,
        )
    }
}

// What a search tells, which leaves the clock.
#[tactic(auto, unfolding(crate::specs::Run::all_numbers, crate::specs::Run::found_numbers))]
fn found_reply(found: Found, clock: Clock) -> Reply
    ensures { (result.numbers ≡ found_numbers found) × (result.clock ≡ clock) }
{
    Reply::of(
        Answer::bare(found.number, 0, 0),
        found.length,
        found.run,
        [0; 3],
        clock,
    )
}

// What carrying a search on tells, which leaves the clock.
#[tactic(auto, unfolding(crate::specs::Run::all_numbers, crate::specs::Run::progress_numbers))]
fn progress_reply(progress: Progress, clock: Clock) -> Reply
    ensures { (result.numbers ≡ progress_numbers progress) × (result.clock ≡ clock) }
{
    Reply::of(
        Answer::filled(progress.number, progress.count, 0, 0),
        progress.length,
        progress.run,
        [progress.ended, 0, 0],
        clock,
    )
}

// The row of thirteen numbers.
impl From<&[u64; Row::WIDTH]> for Row {
    ghost from_gives = { λ l r. r ≡ row_of l.now };

    #[tactic(auto, unfolding(crate::specs::Rows::row_of))]
    fn from(numbers: &[u64; Row::WIDTH]) -> Self {
        Row {
            kind: numbers[0],
            text: numbers[1] as usize,
            size: numbers[2] as usize,
            from: numbers[3] as usize,
            count: numbers[4] as usize,
            number: numbers[5],
            output: numbers[6] as usize,
            model: numbers[7] as usize,
            state: numbers[8] as usize,
            saves: numbers[9] as usize,
            search: numbers[10] as usize,
            start: numbers[11] as usize,
            words: numbers[12] as usize,
        }
    }
}

// Whether so many numbers from a place on are among this many: of the sizes alone, as of the buffers that are lent to be written. `get` would make the slices here, and
// `make` would make them once more.
fn has_part(all: usize, first: usize, size: usize) -> bool
    ensures { result ≡ leb (first + size) all }
{
    size <= all && first <= all - size
}

// Makes the call of a row on what it lends: parts cut to the row's sizes, of which a struct would be made at this one call.
fn make(
    kind: Kind,
    row: Row,
    given: Given,
    model: &mut [u8],
    state: &mut [i64],
    saves: &mut [i64],
    search: &mut [i64],
    outputs: &mut [u64],
    clock: Clock,
) -> Reply
    requires kind { kind_number kind ≡ row.kind }
    requires named { (row.text + row.size ≤ length given.texts.now) × ((row.from + row.count ≤ length given.numbers.now) × (row.start + row.words ≤ length given.words.now)) }
    requires output { length outputs.old ≡ row.output }
    ensures { Makes (effect (row_ask given.entry.texts.now given.entry.numbers.now given.entry.words.now row) (lent_whole model.old state.old saves.old clock search.old) outputs.old) result.numbers (lent_whole model.new state.new saves.new result.clock search.new) outputs.new }
{
    let text = &given.texts[row.text..][..row.size];
    let waiting = &given.numbers[row.from..][..row.count];
    let words = &given.words[row.start..][..row.words];
    match kind {
        Kind::Open => Reply::from(engine::open(text, model, state, saves, search, clock)),
        Kind::Steady => Reply::from(engine::open_steady(text, model, state, saves, search, clock)),
        Kind::List => Reply::plain(engine::list(model, state, outputs), clock),
        Kind::Report => Reply::plain(engine::report(model, state, outputs), clock),
        Kind::Step => Reply::plain(engine::step(model, state, outputs, row.number), clock),
        Kind::Timed => {
            Reply::from(engine::step_timed(model, state, outputs, waiting, row.number, clock))
        }
        Kind::Save => Reply::plain(engine::save(model, state, saves, text, clock), clock),
        Kind::Return => Reply::from(engine::return_to(model, state, saves, text, clock)),
        Kind::Forget => Reply::plain(engine::forget(model, state, saves, text), clock),
        Kind::Search => { found_reply(searches::search(model, state, text, row.number), clock) }
        Kind::Run => {
            Reply::from(engine::run(model, state, words, waiting, outputs, row.number, clock))
        }
        Kind::Begin => {
            let answer = searches::begin(model, state, search, text, row.number);
            Reply::plain(answer, clock)
        }
        Kind::Carry => {
            progress_reply(searches::carry_on(model, state, search, row.number), clock)
        }
    }
}

impl Lent<'_> {
    // Whether a row of one of the kinds is a call on what is given and this, with its output from a place on.
    #[tactic(auto, unfolding(crate::specs::Rows::fits, crate::specs::Rows::is_kind, crate::specs::Rows::row_lengths, crate::specs::Run::room_of, crate::specs::Run::lent_five, machine::specs::Machine::all_parts))]
    fn fits(&self, row: Row, given: Given, output: usize) -> bool
        requires kind { is_kind row.kind ≡ true }
        requires output { output ≤ length self.now.outputs.now }
        ensures { result ≡ fits row (length given.entry.texts.now) (length given.entry.numbers.now) (length given.entry.words.now) (room_of (held self.now)).parts (length self.now.outputs.now - output) }
    {
        has_part(given.texts.len(), row.text, row.size)
            && has_part(given.numbers.len(), row.from, row.count)
            && has_part(given.words.len(), row.start, row.words)
            && row.model <= self.model.len()
            && row.state <= self.state.len()
            && row.saves <= self.saves.len()
            && Row::CLOCK <= self.clock.len()
            && row.search <= self.search.len()
            && row.output <= self.outputs.len() - output
            && row.output <= Row::OUTPUT
    }

    // Makes the call of a row that fits, with its output and its answer from these places on, and writes its answer.
    fn make_row(&mut self, kind: Kind, row: Row, given: Given, output: usize, answer: usize)
        requires kind { kind_number kind ≡ row.kind }
        requires named { (row.text + row.size ≤ length given.texts.now) × ((row.from + row.count ≤ length given.numbers.now) × (row.start + row.words ≤ length given.words.now)) }
        requires lent { (row.model ≤ length self.old.model.now) × ((row.state ≤ length self.old.state.now) × ((row.saves ≤ length self.old.saves.now) × ((row.search ≤ length self.old.search.now) × ((output + row.output ≤ length self.old.outputs.now) × (2 ≤ length self.old.clock.now))))) }
        requires answer { answer + answer_width ≤ length self.old.answers.now }
        ensures kept { Kept self.old self.new }
        ensures made { held self.new ≡ put_at output answer (held self.old) (call_left (row_call given.entry.texts.now given.entry.numbers.now given.entry.words.now row) (lent_at output answer (held self.old))) }
    {
        let now = Clock {
            ticks: self.clock[0],
            draws: self.clock[1],
        };
        let model = &mut self.model[..row.model];
        let state = &mut self.state[..row.state];
        let saves = &mut self.saves[..row.saves];
        let search = &mut self.search[..row.search];
        let outputs = &mut self.outputs[output..output + row.output];
        let reply = make(kind, row, given, model, state, saves, search, outputs, now);
        self.clock[..Row::CLOCK].copy_from_slice(&[reply.clock.ticks, reply.clock.draws]);
        self.answers[answer..answer + Row::ANSWER].copy_from_slice(&reply.numbers);
    }

    // Runs row i of a script, if it is a call. The places of its parts are told here, all three alike, and not by chunks: a row past the end of the outputs may still be a call, which is
    // lent none of them, and `chunks_mut` has no part for such a row.
    fn run_row(&mut self, i: usize, script: &[u64], given: Given) -> bool
        ensures kept { Kept self.old self.new }
        ensures ran { RowRanAt i script.now given.entry.texts.now given.entry.numbers.now given.entry.words.now (held self.old) result (held self.new) }
    {
        let first = i.saturating_mul(Row::WIDTH).min(script.len());
        let output = i.saturating_mul(Row::OUTPUT).min(self.outputs.len());
        let answer = i.saturating_mul(Row::ANSWER).min(self.answers.len());
        let Some(numbers) = script[first..].first_chunk::<{ Row::WIDTH }>() else {
            return false;
        };
        if self.answers.len() - answer < Row::ANSWER {
            return false;
        }
        let row = Row::from(numbers);
        let Ok(kind) = Kind::try_from(row.kind) else {
            return false;
        };
        if !self.fits(row, given, output) {
            return false;
        }
        self.make_row(kind, row, given, output, answer);
        true
    }
}

// Runs the rows of a script up to the first that is no call, and answers how many.
pub fn run(
    script: &[u64],
    texts: &[u8],
    numbers: &[u16],
    words: &[u64],
    model: &mut [u8],
    state: &mut [i64],
    saves: &mut [i64],
    search: &mut [i64],
    clock: &mut [u64],
    outputs: &mut [u64],
    answers: &mut [u64],
) -> usize
    ensures ran { Ran script.now texts.now numbers.now words.now (lent_of (lent_five model.old state.old saves.old clock.old search.old) outputs.old answers.old) result (lent_of (lent_five model.new state.new saves.new clock.new search.new) outputs.new answers.new) }
    ensures refines { Refines script.now texts.now numbers.now words.now (lent_of (lent_five model.old state.old saves.old clock.old search.old) outputs.old answers.old) (lent_of (lent_five model.new state.new saves.new clock.new search.new) outputs.new answers.new) }
{
    let given = Given {
        texts,
        numbers,
        words,
    };
    let mut lent = Lent {
        model,
        state,
        saves,
        search,
        clock,
        outputs,
        answers,
    };
    let rows = script.len() / Row::WIDTH;
    for i in 0..rows {
        if !lent.run_row(i, script, given) {
            return i;
        }
    }
    rows
}
