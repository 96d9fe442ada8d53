// A plan of what is to be printed: operations, a number each, which a planner adds to a lent array. `write` makes records and texts of a
// plan.
#![tactic(auto)]

pub mod notes;
pub mod words;
pub mod write;

ghost use Rattle.std.specs.Prelude.{◌≡◌, ◌<◌};
ghost use Rattle.items.specs.Item.{say, says, lit, open_run, stopped, text, signal, condition_test, mark, run_end, again, if_test};
ghost use Rattle.numbers.specs.Mode.{keeps};
ghost use Rattle.comments.specs.Place.{place};
ghost use Rattle.plan.specs.Words.{word_at, word_or_none, word_count};
ghost use Rattle.plan.specs.Ops.{token, note, note_kind, expand, op_items, operand_limit};
ghost use Rattle.tree.specs.Source.{Source};
ghost use Rattle.plan.specs.declared.Halt.TheVariants.{Stopped};
ghost use Rattle.plan.specs.Load.{Carried};
ghost use Rattle.plan.specs.Plans.{fresh, Plans, PlansIn, PlansAny, AddsAny, made, halting};

use comments::{CommentLocation, is_silent};
use items::{Condition, Signal, signal_kind};
use numbers::mode::Mode;
use numbers::{Element, Mark, Run};
use tree::Tree;

// Why planning does not go on: it stopped at an element, or found no room.
#[derive(Clone, Copy)]
pub enum Halt {
    Stopped(Element),
    Full,
}

// How many operations a plan has, and how many runs they begin.
#[derive(Clone, Copy)]
pub struct Plan {
    pub operations: usize,
    pub runs: u32,
}

// A plan in the making: a lent array with the operations so far, whether planning goes on, how many operations and runs there are, and the
// mode. It holds no tree: words, signals and runs are planned for every tree.
#[derive(Drop)]
pub struct Planner<'a> {
    ops: &'a mut [u32],
    halt: Option<Halt>,
    operations: usize,
    runs: u32,
    mode: Mode,
}

// An operation is its kind, 5 bits, and its operand, 27 bits: a number, since the lent array has fixed memory. Operands from LIMIT on have no
// room.
pub const KINDS: u32 = 32;

const LIMIT: u32 = 0x800_0000;

// The kinds of operations; the others are those of items without a text.
pub const TOKEN: u32 = 0;

pub const WORD: u32 = 1;

pub const NOTE_ABOVE: u32 = 19;

pub const NOTE_INLINE: u32 = 20;

const NOTE_ENDING: u32 = 21;

// The kind of a comment at a place.
fn note_kind(loc: CommentLocation) -> u32
    ensures { result ≡ note_kind (place loc) }
{
    match loc {
        CommentLocation::AboveItem => NOTE_ABOVE,
        CommentLocation::ItemInline => NOTE_INLINE,
        CommentLocation::EndOfItems => NOTE_ENDING,
    }
}

impl<'a> Planner<'a> {
    // Before the first operation, in a mode.
    pub fn new(ops: &'a mut [u32], mode: Mode) -> Planner<'a>
        ensures { result ≡ fresh ops.entry mode }
    {
        Planner {
            ops,
            halt: None,
            operations: 0,
            runs: 0,
            mode,
        }
    }

    // The plan, if planning went on to its end.
    pub fn finish(&self) -> Result<Plan, Halt>
        ensures { result ≡ made self.now }
    {
        match self.halt {
            None => Ok(Plan {
                operations: self.operations(),
                runs: self.runs,
            }),
            Some(halt) => Err(halt),
        }
    }

    // How many operations were added.
    pub fn operations(&self) -> usize
        ensures { result ≡ self.now.operations }
    {
        self.operations
    }

    // Whether comments around statements are kept.
    pub fn is_keeping(&self) -> bool
        ensures { result ≡ keeps self.now.mode }
    {
        self.mode == Mode::Keeping
    }

    // The number that the next list gets.
    pub fn next_run(&self) -> Run
        ensures { result.0 ≡ self.now.runs }
    {
        Run(self.runs)
    }

    // Adds an operation, if planning goes on and there is room.
    fn add(&mut self, op: u32)
        ensures { AddsAny self (λ s. says (op_items s op)) }
    {
        let halted = self.halt.is_some();
        if halted {
            return;
        }
        let at = self.operations;
        if self.ops.len() <= at {
            self.halt = Some(Halt::Full);
            return;
        }
        self.ops[at] = op;
        self.operations = at + 1;
    }

    // Adds an operation with an operand.
    fn add_numbered(&mut self, kind: u32, v: u64)
        requires { kind < 32 }
        ensures { (s : Source) → Carried s kind v → Plans s (says (expand s kind v)) self.old self.new }
    {
        if self.halt.is_some() {
            return;
        }
        if LIMIT as u64 <= v {
            self.halt = Some(Halt::Full);
            return;
        }
        self.add(kind + KINDS * (v as u32));
    }

    // Plans the text with a number.
    pub fn plan_word(&mut self, w: u32)
        requires { w < word_count }
        ensures { PlansAny self (lit (word_at w)) }
    {
        self.add_numbered(WORD, w as u64);
    }

    // Plans the text with a number, and nothing for number 0.
    pub fn plan_optional(&mut self, w: u32)
        requires { w < word_count }
        ensures { PlansAny self (word_or_none w) }
    {
        if w == 0 {
            return;
        }
        self.plan_word(w);
    }

    // Plans the text of element t.
    pub fn plan_token(&mut self, t: Element)
        requires { t.0 < operand_limit }
        ensures { (s : Source) → Plans s (say (text (token s t.0))) self.old self.new }
    {
        self.add_numbered(TOKEN, t.0 as u64);
    }

    // Plans the comment of element t at a place, if it prints anything: each operation prints an item or more.
    fn plan_comment(&mut self, tree: &Tree, t: Element, loc: CommentLocation)
        requires { t.0 < operand_limit }
        ensures { PlansIn self tree (says (note tree.now t.0 (place loc))) }
    {
        let k = tree.kind_at(t.0);
        let s = tree.text_at(t.0);
        if is_silent(k, s) {
            return;
        }
        self.add_numbered(note_kind(loc), t.0 as u64);
    }

    // Plans an item without operands.
    pub fn plan_signal(&mut self, x: Signal)
        ensures { PlansAny self (say (signal x)) }
    {
        self.add_numbered(signal_kind(x), 0);
    }

    // Plans a line mark.
    pub fn plan_mark(&mut self, m: Mark)
        ensures { PlansAny self (say (mark m.0)) }
    {
        self.add_numbered(items::MARK, m.0);
    }

    // Begins the run of the next list, which takes its number where there was room.
    pub fn open_run(&mut self)
        ensures { PlansAny self open_run }
    {
        if self.halt.is_some() {
            return;
        }
        let k = self.runs;
        if LIMIT <= k {
            self.halt = Some(Halt::Full);
            return;
        }
        self.add(items::RUN + KINDS * k);
        if self.halt.is_none() {
            self.runs = k + 1;
        }
    }

    // Ends a run.
    pub fn end_run(&mut self, k: Run)
        ensures { PlansAny self (say (run_end k.0)) }
    {
        self.add_numbered(items::RUN_END, k.0 as u64);
    }

    // Plans what a run holds once more.
    pub fn plan_again(&mut self, k: Run)
        ensures { PlansAny self (say (again k.0)) }
    {
        self.add_numbered(items::AGAIN, k.0 as u64);
    }

    // Begins the first branch of a condition.
    pub fn plan_if(&mut self, t: Condition)
        ensures { PlansAny self (say (if_test (condition_test t))) }
    {
        match t {
            Condition::Always => self.add_numbered(items::IF, 0),
            Condition::Lines(m) => self.add_numbered(items::IF_LINES, m.0),
        }
    }

    // Stops at an element, where planning still goes on.
    pub fn stop_at(&mut self, e: Element)
        ensures plans { PlansAny self (stopped e.0) }
        ensures halts { self.new ≡ halting (Stopped e) self.old }
    {
        if self.halt.is_some() {
            return;
        }
        self.halt = Some(Halt::Stopped(e));
    }
}
